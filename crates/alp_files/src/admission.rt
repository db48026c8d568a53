//! Whom an access list admits.
ghost use Rattle.std.specs.Prelude.{◌≡◌};
ghost use Rattle.alp_files.specs.Cells.{has_name as has_name_said};
ghost use Rattle.alp_files.specs.Act.{admits as admitting};

use alp_base::{AccessList, Name};

fn has_name(names: &[Name], bytes: &[u8]) -> bool
    ensures { result ≡ has_name_said bytes.now names.now }
{
    names.iter().any(|name| name.as_bytes() == bytes)
}

/// Whether the list admits the principal to what the owner has.
///
/// It does where it holds `World`, or the principal's name, or `Owner` and the principal is the
/// owner. This is the rule that the meaning of calls cites.
pub fn admits(list: &AccessList, who: &Name, owner: &Name) -> bool
    ensures { result ≡ admitting list.now who.now owner.now }
{
    let names = list.names();
    has_name(names, b"World")
        || has_name(names, who.as_bytes())
        || (who == owner && has_name(names, b"Owner"))
}

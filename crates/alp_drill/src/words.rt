//! The words of a drill: a letter and a number behind it.
ghost use Rattle.std.specs.Prelude.{◌≡◌, ◌≤◌, ◌++◌, ◌∷◌, [], IfOk, length, string_bytes, true};
ghost use Rattle.std.specs.Fmt.{decimal};
ghost use Rattle.alp_base.specs.Names.{is_name};

use alp_base::{AccessList, Bytes, Name, OutOfMemory};
use std::alloc::Global;
use std::fmt::Write;

fn spelled(alloc: Global, letter: &str, number: u32) -> Result<String, OutOfMemory>
    ensures { IfOk result (λ text. string_bytes text ≡ letter.now ++ decimal number) }
{
    let mut text = String::new(alloc);
    text.push_str(letter)?;
    match write!(text, "{number}") {
        Ok(()) => Ok(text),
        Err(_) => Err(OutOfMemory),
    }
}

/// The name of the letter and the number.
#[tactic(auto, using(crate::proofs::WordLemmas::numbered_name))]
pub(crate) fn name(alloc: Global, letter: &str, number: u32) -> Result<Name, OutOfMemory>
    requires named { is_name letter.now ≡ true }
    requires short { length letter.now ≤ 4 }
    ensures { IfOk result (λ name. name ≡ letter.now ++ decimal number) }
{
    let text = spelled(alloc, letter, number)?;
    Ok(Name::spelled(text.as_bytes()))
}

/// The text of the letter and the number.
pub(crate) fn text(alloc: Global, letter: &str, number: u32) -> Result<Bytes, OutOfMemory>
    ensures { IfOk result (λ text. text ≡ letter.now ++ decimal number) }
{
    let text = spelled(alloc, letter, number)?;
    Ok(Bytes::new(text.into_bytes()))
}

/// The access list with this one name.
pub(crate) fn list_of(alloc: Global, name: &[u8]) -> Result<AccessList, OutOfMemory>
    requires { is_name name.now ≡ true }
    ensures { IfOk result (λ list. list ≡ name.now ∷ []) }
{
    let mut names = Vec::new(alloc);
    names.push(Name::spelled(name))?;
    Ok(AccessList::new(names))
}

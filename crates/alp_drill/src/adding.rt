//! Adding a line.
ghost use Rattle.std.specs.Prelude.{◌≡◌, ◌++◌, ◌∷◌, [], OnOk};

use alp_base::OutOfMemory;
use alp_lines::Line;

/// Puts a line behind the others.
pub(crate) fn add(script: &mut Vec<Line>, line: Line) -> Result<(), OutOfMemory>
    ensures { OnOk result (script.new.items ≡ script.old.items ++ line ∷ []) }
{
    script.push(line)?;
    Ok(())
}

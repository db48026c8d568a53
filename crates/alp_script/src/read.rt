//! Reading a script from a source.
ghost use Rattle.std.specs.Prelude.{◌≡◌, ℕ, List};
ghost use Rattle.alp_script.specs.Accepted.{IsAccepted};
ghost use Rattle.alp_script.specs.Reading.{ReadsScript, HasReadCause};
ghost use Rattle.alp_script.specs.Script.{script};

use crate::reader::Reader;
use crate::{NumberedLine, ScriptFault};
use alp_base::Source;
use std::alloc::Global;

// How much is asked of the source at a time.
const PIECE_BYTES: usize = 4096;

/// The lines of the script that the source gives. A line that is outside is answered before any
/// further read, and so whether or not the source would fail behind it.
pub fn read_script<S: Source>(
    alloc: Global,
    source: &mut S,
) -> Result<Vec<NumberedLine>, ScriptFault>
    ensures script { ReadsScript (S.left source.old) (S.left source.new) result }
    ensures cause { HasReadCause (S.faults source.old) (S.faults source.new) result }
{
    let mut reader = Reader::new(alloc);
    let mut buf = [0u8; PIECE_BYTES];
    loop {
        let Ok(count) = source.read(&mut buf) else {
            return Err(ScriptFault::ReadFault);
        };
        if count == 0 {
            return reader.finish();
        }
        reader.feed(&buf[..count])?;
    }
}

/// The lines of a script stand where they may and are of the language's forms, their numbers rise,
/// there is at least one and there are not too many. The first declares from 1 to 8 servers, and
/// each names a client and servers of the run, also by an id of a file, the client behind its
/// declaration.
pub fn accepted_lines()
    ensures { (bytes : List ℕ) (lines : List NumberedLine) → script bytes ≡ Ok lines → IsAccepted lines }
{}

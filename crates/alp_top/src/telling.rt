//! The end of the program: what it says on its standard error, and its exit code.
ghost use Rattle.std.specs.Prelude.{◌≡◌, ◌≢◌, ◌++◌, codes};
ghost use Rattle.alp_top.specs.Statuses.{code_of, status_said, SaysLine};

use crate::status::{Status, status_text};
use crate::write_all::write_all;
use alp_base::Sink;
use alp_disk::Disk;

fn say<D: Disk, K: Sink>(status: &Status<D>, err: &mut K)
    ensures { SaysLine (K.written err.old) (K.written err.new) (K.faults err.old) (K.faults err.new) (status_said status.now ++ codes "\n") }
{
    let mut line = status_text(status);
    line.push_str("\n");
    match write_all(err, line.as_str().as_bytes()) {
        Ok(()) => {}
        Err(_) => {}
    }
}

/// Says how a run ended, on a line of its own, or nothing where the run is done, and gives the exit code. Of a line whose writing fails a part is
/// said. Takes no memory.
pub fn tell<D: Disk, K: Sink>(status: &Status<D>, err: &mut K) -> u8
    ensures code { result ≡ code_of status.now }
    ensures done { result ≡ 0 → err.new ≡ err.old }
    ensures text { result ≢ 0 → SaysLine (K.written err.old) (K.written err.new) (K.faults err.old) (K.faults err.new) (status_said status.now ++ codes "\n") }
{
    let code = status.code();
    if code != 0 {
        say(status, err);
    }
    code
}

//! Writing all of a text.
ghost use Rattle.std.specs.Prelude.{◌≡◌, ℕ, ◌≤◌, take, OnOk};
ghost use Rattle.std.specs.Io.KnownBytes.{Appends};
ghost use Rattle.alp_base.specs.Causes.{HasStreamCause};

use alp_base::{Failed, Sink};

/// Writes these bytes and no others. After a fault a prefix of them is written.
pub fn write_all<K: Sink>(sink: &mut K, bytes: &[u8]) -> Result<(), Failed>
    ensures bytes { OnOk result (Appends (K.written sink.old) (K.written sink.new) bytes.now) }
    ensures prefix { (count : ℕ) × Appends (K.written sink.old) (K.written sink.new) (take count bytes.now) }
    ensures cause { HasStreamCause (K.faults sink.old) (K.faults sink.new) result }
{
    let mut done = 0;
    while done < bytes.len() {
        done += sink.write(&bytes[done..])?;
    }
    Ok(())
}

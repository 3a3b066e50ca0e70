//! Streams of bytes.

ghost use Rattle.std.specs.Prelude.{◌≡◌, ◌<◌, ◌≤◌, ℕ, List, length, Option, IfOk};
ghost use Rattle.std.specs.Io.KnownBytes.{WriteAppends};
ghost use Rattle.cjvm_io.specs.Faults.{HasCause};
ghost use Rattle.cjvm_io.specs.Sinks.{GainsAll};

use thiserror::Error;

/// A write failed. What the sink holds is as before that write.
#[derive(Clone, Copy, Debug, PartialEq, Eq, Error)]
#[error("write fault")]
pub struct Failed;

/// Something to which bytes are appended. A sink may tell the bytes that it holds; one over a real
/// stream tells nothing.
pub trait Sink {
    /// The bytes that it holds, if it tells that.
    ghost held: { Self → Option (List ℕ) };
    /// How many faults struck; the count stays at the last value of a u64.
    ghost faults: { Self → ℕ };

    /// Appends the first bytes of a piece, at least one where there is one, and says how many.
    fn write(&mut self, piece: &[u8]) -> Result<usize, Failed>
        ensures bound { IfOk result (λ n. (n ≤ length piece.now) × (0 < length piece.now → 0 < n)) }
        ensures bytes { WriteAppends (held self.old) (held self.new) result piece.now }
        ensures cause { HasCause (faults self.old) (faults self.new) result };
}

/// Writes all bytes, in as many pieces as it takes, up to the first fault.
pub fn write_all<O: Sink>(out: &mut O, bytes: &[u8]) -> Result<(), Failed>
    ensures bytes { GainsAll (O.held out.old) (O.held out.new) bytes.now result }
    ensures cause { HasCause (O.faults out.old) (O.faults out.new) result }
{
    let mut done = 0;
    while done < bytes.len() {
        done += out.write(&bytes[done..])?;
    }
    Ok(())
}

// The trait of a desk. What it tells is one ghost value, and how often it has failed another, so that what a call keeps
// is one equation.
ghost use Rattle.std.specs.Prelude.{◌≡◌, ℕ, ◌<◌, length, IsTrue, IfOk, OnOk, OnErr};
ghost use Rattle.std.specs.Result.{is_err};
ghost use Rattle.desk.specs.State.{State, IsLegal, reading, log_begun};
ghost use Rattle.desk.specs.Causes.{Faults, ReadCause, WriteCause};
ghost use Rattle.desk.specs.Calls.{Asks, BeginsRead, Reads, Writes};

use thiserror::Error;

/// The text that is read through a slot: the model, or a log that is to be checked. Each slot has at most one file.
#[derive(Clone, Copy, Debug, PartialEq, Eq)]
pub enum Slot {
    Model,
    Log,
}

/// Where bytes are written: to standard output or to the log.
#[derive(Clone, Copy, Debug, PartialEq, Eq)]
pub enum To {
    Out,
    Log,
}

/// What a begin call was for: to read a file through a slot, or to write the log.
#[derive(Clone, Copy, Debug, PartialEq, Eq)]
pub enum Asked {
    Read(Slot),
    Log,
}

/// The outside has failed. A desk counts each failure, so that a caller cannot make one up.
#[derive(Clone, Copy, Debug, PartialEq, Eq, Error)]
#[error("the desk has failed")]
pub struct Failed;

/// The outside of a program: files to be read, a log and standard output to be written. Where a desk tells its bytes,
/// a caller's contract can say which bytes it read and wrote. A desk that does not still says how many it read and
/// logged, what it was asked for, and whether it has failed.
///
/// A call fails only where its own count of faults has risen, or stands at the last value of a counter of 64 bits. It
/// leaves all that is told as it was, but that a begin call may stand among what was asked.
pub trait Desk {
    /// All that the desk tells, but its faults.
    ghost state: { Self → State };

    /// How often reading and writing have failed.
    ghost faults: { Self → Faults };

    /// Begins to read the file of this name through the slot, from its first byte. What was left there is forgotten.
    /// Where files are told, it fails where there is none of this name.
    fn begin_read(&mut self, slot: Slot, name: &str) -> Result<(), Failed>
        ensures ok { OnOk result (BeginsRead slot name.now (state self.old) (state self.new)) }
        ensures err { OnErr result (Asks (Asked.Read slot) name.now (state self.old) (state self.new)) }
        ensures cause { ReadCause (faults self.old) (faults self.new) (is_err result) };

    /// Moves the next bytes of the slot to the front of the buffer, and answers how many. None are the end of the file.
    /// A read that would pass 2 ^ 40 bytes since the slot was begun fails.
    fn read(&mut self, slot: Slot, buf: &mut [u8]) -> Result<usize, Failed>
        requires begun { IsTrue (reading slot (state self.old)).begun }
        requires room { 0 < length buf.old }
        ensures ok { IfOk result (Reads slot (state self.old) (state self.new) buf.new) }
        ensures err { OnErr result (state self.new ≡ state self.old) }
        ensures cause { ReadCause (faults self.old) (faults self.new) (is_err result) };

    /// Begins to write a log of this name, and empties it.
    fn begin_log(&mut self, name: &str) -> Result<(), Failed>
        ensures ok { OnOk result (state self.new ≡ log_begun name.now (state self.old)) }
        ensures err { OnErr result (Asks Asked.Log name.now (state self.old) (state self.new)) }
        ensures cause { WriteCause (faults self.old) (faults self.new) (is_err result) };

    /// Writes the first bytes of the piece, and answers how many, at least one. A write to the log that would pass
    /// 2 ^ 40 bytes since it was begun fails.
    fn write(&mut self, to: To, piece: &[u8]) -> Result<usize, Failed>
        requires begun { to ≡ To.Log → IsTrue (state self.old).log.begun }
        requires some { 0 < length piece.now }
        ensures ok { IfOk result (Writes to piece.now (state self.old) (state self.new)) }
        ensures err { OnErr result (state self.new ≡ state self.old) }
        ensures cause { WriteCause (faults self.old) (faults self.new) (is_err result) };

    /// At any time at most 2 ^ 40 bytes were handed out of a slot, and written to the log, since it was begun.
    ghost legal: { (d : Self) → IsLegal (state d) };
}

// A desk over real files and standard output.
ghost use Rattle.std.specs.Prelude.{◌≡◌, ◌≤◌, ◌<◌, length, IfSome};

use crate::counted::Counted;
use crate::faults::FaultCounts;
use crate::files::{read_file, write_file};
use crate::requests::{Request, ask};
use crate::{Asked, Desk, Failed, Slot, To};
use std::fs;
use std::rt::Runtime;

/// A desk over the files and the standard output of a runtime: the trusted edge. It tells no bytes, and tries nothing
/// twice. A call fails at an error of the system, a write also where no byte was written, a read and a write to the log
/// also where 2 ^ 40 bytes were passed since the begin call, and a begin call also where memory for the name is refused.
#[derive(Drop)]
pub struct RealDesk<R: Runtime + AllocGlobal> {
    rt: R,
    model: Option<Counted<R::File>>,
    log_read: Option<Counted<R::File>>,
    log: Option<Counted<R::File>>,
    asked: Vec<Request>,
    faults: FaultCounts,
}

// Writes once. An error or no byte is None.
fn print_some<R: Print>(rt: &R, piece: &[u8]) -> Option<usize>
    ensures some { IfSome result (λ n. 0 < n) }
    ensures within { IfSome result (λ n. n ≤ length piece.now) }
{
    match rt.write_some(piece) {
        Ok(0) => None,
        Ok(n) => Some(n),
        Err(_) => None,
    }
}

impl<R: Runtime + AllocGlobal> RealDesk<R> {
    ghost use Rattle.std.specs.Prelude.{◌≡◌};
    ghost use Rattle.desk.specs.RealDesk.{nothing_told};

    /// A desk on which nothing was asked, read or written.
    pub fn new(rt: R) -> RealDesk<R>
        ensures state { ⟦<RealDesk<R> as Desk>⟧.state result ≡ nothing_told }
        ensures faults { ⟦<RealDesk<R> as Desk>⟧.faults result ≡ record { reads = 0; writes = 0 } }
    {
        let asked = Vec::new(rt.alloc());
        RealDesk {
            rt,
            model: None,
            log_read: None,
            log: None,
            asked,
            faults: FaultCounts {
                reads: 0,
                writes: 0,
            },
        }
    }
}

impl<R: Runtime + AllocGlobal> Desk for RealDesk<R> {
    ghost use Rattle.std.specs.Prelude.{◌≡◌};
    ghost use Rattle.desk.specs.Requests.{requests_of};
    ghost use Rattle.desk.specs.FaultCounts.{faults_of};
    ghost use Rattle.desk.specs.RealDesk.{real_state, real_legal};

    ghost state = { λ d. real_state (requests_of d.asked.items) d.model d.log_read d.log };

    ghost faults = { λ d. faults_of d.faults };

    ghost legal = { λ d. real_legal (requests_of d.asked.items) d.model d.log_read d.log };

    fn begin_read(&mut self, slot: Slot, name: &str) -> Result<(), Failed> {
        let Ok(()) = ask(self.rt.alloc(), &mut self.asked, Asked::Read(slot), name) else {
            return Err(self.faults.reading_failed());
        };
        match fs::open(&self.rt, name) {
            Ok(file) => {
                let file = Some(Counted::new(file));
                match slot {
                    Slot::Model => self.model = file,
                    Slot::Log => self.log_read = file,
                }
                Ok(())
            }
            Err(_) => Err(self.faults.reading_failed()),
        }
    }

    fn read(&mut self, slot: Slot, buf: &mut [u8]) -> Result<usize, Failed> {
        let count = match slot {
            Slot::Model => read_file(&mut self.model, buf),
            Slot::Log => read_file(&mut self.log_read, buf),
        };
        match count {
            Some(count) => Ok(count),
            None => Err(self.faults.reading_failed()),
        }
    }

    // The name is kept first: once the file is created, what it had is lost.
    fn begin_log(&mut self, name: &str) -> Result<(), Failed> {
        let Ok(()) = ask(self.rt.alloc(), &mut self.asked, Asked::Log, name) else {
            return Err(self.faults.writing_failed());
        };
        match fs::create(&self.rt, name) {
            Ok(file) => {
                self.log = Some(Counted::new(file));
                Ok(())
            }
            Err(_) => Err(self.faults.writing_failed()),
        }
    }

    fn write(&mut self, to: To, piece: &[u8]) -> Result<usize, Failed> {
        let count = match to {
            To::Out => print_some(&self.rt, piece),
            To::Log => write_file(&mut self.log, piece),
        };
        match count {
            Some(count) => Ok(count),
            None => Err(self.faults.writing_failed()),
        }
    }
}

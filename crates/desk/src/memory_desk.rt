// A desk in memory.
use crate::faults::FaultCounts;
use crate::opened::{Logged, Opened};
use crate::plan::{FailurePlan, write_call};
use crate::requests::{Request, ask};
use crate::steps::{append_log, append_out, read_on};
use crate::{Asked, Desk, DeskCall, Failed, Slot, To};
use std::alloc::{AllocError, Global};
use std::collections::BTreeMap;

/// A desk in memory, for tests. It tells everything. A call of it fails where [`MemoryDesk::fail_at`] named it, where
/// there is no file of the name, where more than 2 ^ 40 bytes would be handed out or logged, and where a begin call or
/// a write is refused memory, and in no other case. Each failed call is counted as one fault.
#[derive(Drop)]
pub struct MemoryDesk {
    alloc: Global,
    files: BTreeMap<String, Vec<u8>>,
    model: Option<Opened>,
    log_read: Option<Opened>,
    log: Option<Logged>,
    out: Vec<u8>,
    asked: Vec<Request>,
    plan: FailurePlan,
    faults: FaultCounts,
}

impl MemoryDesk {
    ghost use Rattle.std.specs.Prelude.{◌≡◌, ◌+◌, ◌-◌, ◌^◌, ◌<◌, [], ◌++◌, length, min, false, None, Some, OnOk, OnErr, IfSome, OnSome, IfNone, IsTrue, IsSome, if◌then◌else◌};
    ghost use Rattle.desk.specs.State.{State, reading, file, asking, read_begun, log_begun, written};
    ghost use Rattle.desk.specs.Causes.{Faults};
    ghost use Rattle.desk.specs.Calls.{BeginsRead, Reads};
    ghost use Rattle.desk.specs.Plan.{no_plan, planning};
    ghost use Rattle.desk.specs.MemoryDesk.{memory_state, memory_faults, memory_plan, with_file, next_count, nothing_yet};

    /// A desk with no file, on which nothing was asked, read or written, and nothing is to fail.
    pub fn new(alloc: Global) -> MemoryDesk
        ensures state { memory_state result ≡ nothing_yet }
        ensures faults { memory_faults result ≡ record { reads = 0; writes = 0 } }
        ensures plan { memory_plan result ≡ no_plan }
    {
        MemoryDesk {
            alloc,
            files: BTreeMap::new(alloc),
            model: None,
            log_read: None,
            log: None,
            out: Vec::new(alloc),
            asked: Vec::new(alloc),
            plan: FailurePlan::new(alloc),
            faults: FaultCounts {
                reads: 0,
                writes: 0,
            },
        }
    }

    /// Puts a file of these bytes in the place of any file of the name. A slot that was begun goes on with what it had.
    /// An `Err` is want of memory, and changes nothing.
    pub fn put_file(&mut self, name: &str, bytes: &[u8]) -> Result<(), AllocError>
        ensures ok { OnOk result (memory_state self.new ≡ with_file name.now bytes.now (memory_state self.old)) }
        ensures err { OnErr result (memory_state self.new ≡ memory_state self.old) }
        ensures faults { memory_faults self.new ≡ memory_faults self.old }
        ensures plan { memory_plan self.new ≡ memory_plan self.old }
    {
        let name = String::from_str(self.alloc, name)?;
        let bytes = Vec::from_slice(self.alloc, bytes)?;
        self.files.insert(name, bytes)?;
        Ok(())
    }

    /// Lets the call of this kind with this number fail. The calls of each kind are counted from 1 on, since the desk was
    /// made: 0, and a number that is passed, name no call. An `Err` is want of memory, and changes nothing.
    pub fn fail_at(&mut self, call: DeskCall, number: u64) -> Result<(), AllocError>
        ensures ok { OnOk result (memory_plan self.new ≡ planning call number (memory_plan self.old)) }
        ensures err { OnErr result (memory_plan self.new ≡ memory_plan self.old) }
        ensures state { memory_state self.new ≡ memory_state self.old }
        ensures faults { memory_faults self.new ≡ memory_faults self.old }
    {
        self.plan.fail_at(call, number)
    }

    /// What was written to standard output.
    pub fn out(&self) -> &[u8]
        ensures { Some result.now ≡ (memory_state self.now).out }
    {
        &self.out
    }

    /// What was written to the log since it was begun.
    pub fn log(&self) -> &[u8]
        ensures { Some result.now ≡ (memory_state self.now).log.text }
    {
        match &self.log {
            Some(log) => log.bytes(),
            None => &[],
        }
    }

    /// How often a call has failed, as far as a counter of 64 bits tells.
    pub fn faults(&self) -> u64
        ensures { result ≡ min ((memory_faults self.now).reads + (memory_faults self.now).writes) (2 ^ 64 - 1) }
    {
        self.faults.total()
    }

    // Begins to read, unless there is no such file or memory is refused.
    fn open(&mut self, slot: Slot, name: &str) -> Option<()>
        ensures some { OnSome result (BeginsRead slot name.now (memory_state self.old) (memory_state self.new)) }
        ensures none { IfNone result (memory_state self.new ≡ memory_state self.old) }
        ensures faults { self.new.faults ≡ self.old.faults }
        ensures plan { self.new.plan ≡ self.old.plan }
    {
        let text = self.files.get(name)?;
        let opened = Opened::new(self.alloc, text).ok()?;
        ask(self.alloc, &mut self.asked, Asked::Read(slot), name).ok()?;
        match slot {
            Slot::Model => self.model = Some(opened),
            Slot::Log => self.log_read = Some(opened),
        }
        Some(())
    }

    // Appends the piece, unless the log's bound would be passed or memory is refused.
    fn append(&mut self, to: To, piece: &[u8]) -> Option<usize>
        requires { to ≡ To.Log → IsTrue (memory_state self.old).log.begun }
        ensures some { OnSome result (memory_state self.new ≡ written to piece.now (memory_state self.old)) }
        ensures count { IfSome result (λ n. n ≡ length piece.now) }
        ensures none { IfNone result (memory_state self.new ≡ memory_state self.old) }
        ensures faults { self.new.faults ≡ self.old.faults }
        ensures plan { self.new.plan ≡ self.old.plan }
    {
        match to {
            To::Out => append_out(&mut self.out, piece),
            To::Log => append_log(&mut self.log, piece),
        }
    }

    // Reads on, unless the bound would be passed.
    fn read_on(&mut self, slot: Slot, buf: &mut [u8]) -> Option<usize>
        requires begun { IsTrue (reading slot (memory_state self.old)).begun }
        requires room { 0 < length buf.old }
        ensures some { IfSome result (Reads slot (memory_state self.old) (memory_state self.new) buf.new) }
        ensures count { IfSome result (λ n. n ≡ next_count slot (length buf.old) (memory_state self.old)) }
        ensures none { IfNone result (memory_state self.new ≡ memory_state self.old) }
        ensures past { IfNone result (2 ^ 40 < (reading slot (memory_state self.old)).given + next_count slot (length buf.old) (memory_state self.old)) }
        ensures faults { self.new.faults ≡ self.old.faults }
        ensures plan { self.new.plan ≡ self.old.plan }
    {
        match slot {
            Slot::Model => read_on(&mut self.model, buf),
            Slot::Log => read_on(&mut self.log_read, buf),
        }
    }
}

impl Desk for MemoryDesk {
    ghost use Rattle.std.specs.Prelude.{◌≡◌, ◌⊎◌, ◌+◌, ◌^◌, ◌<◌, ℕ, length, IsTrue, IsErr, IfOk, OnOk, OnErr};
    ghost use Rattle.std.specs.Result.{is_err};
    ghost use Rattle.desk.specs.State.{State, IsLegal, reading, log_begun};
    ghost use Rattle.desk.specs.Causes.{Faults, ReadCause, WriteCause, read_failed, write_failed};
    ghost use Rattle.desk.specs.Calls.{Asks, BeginsRead, Reads, Writes};
    ghost use Rattle.desk.specs.Plan.{counted, is_planned, write_call_of};
    ghost use Rattle.desk.specs.MemoryDesk.{memory_state, memory_faults, memory_plan, memory_legal, next_count};

    ghost state = { memory_state };

    ghost faults = { memory_faults };

    ghost legal = { memory_legal };

    fn begin_read(&mut self, slot: Slot, name: &str) -> Result<(), Failed>
        ensures ok { OnOk result (BeginsRead slot name.now (memory_state self.old) (memory_state self.new)) }
        ensures err { OnErr result (Asks (Asked.Read slot) name.now (memory_state self.old) (memory_state self.new)) }
        ensures cause { ReadCause (memory_faults self.old) (memory_faults self.new) (is_err result) }
        ensures once { OnErr result (memory_faults self.new ≡ read_failed (memory_faults self.old)) }

        // It fails where it was told to.
        ensures planned { IsTrue (is_planned DeskCall.BeginRead (memory_plan self.old)) → IsErr result }
        ensures counted { memory_plan self.new ≡ counted DeskCall.BeginRead (memory_plan self.old) }
    {
        if self.plan.next_fails(DeskCall::BeginRead) {
            return Err(self.faults.reading_failed());
        }
        match self.open(slot, name) {
            Some(()) => Ok(()),
            None => Err(self.faults.reading_failed()),
        }
    }

    fn read(&mut self, slot: Slot, buf: &mut [u8]) -> Result<usize, Failed>
        requires begun { IsTrue (reading slot (memory_state self.old)).begun }
        requires room { 0 < length buf.old }
        ensures ok { IfOk result (Reads slot (memory_state self.old) (memory_state self.new) buf.new) }
        ensures err { OnErr result (memory_state self.new ≡ memory_state self.old) }
        ensures cause { ReadCause (memory_faults self.old) (memory_faults self.new) (is_err result) }
        ensures once { OnErr result (memory_faults self.new ≡ read_failed (memory_faults self.old)) }

        // It moves all that fits, and fails exactly where it was told to or the bound would be passed.
        ensures count { IfOk result (λ n. n ≡ next_count slot (length buf.old) (memory_state self.old)) }
        ensures planned { IsTrue (is_planned DeskCall.Read (memory_plan self.old)) → IsErr result }
        ensures only { OnErr result (IsTrue (is_planned DeskCall.Read (memory_plan self.old))
            ⊎ (2 ^ 40 < (reading slot (memory_state self.old)).given + next_count slot (length buf.old) (memory_state self.old))) }
        ensures counted { memory_plan self.new ≡ counted DeskCall.Read (memory_plan self.old) }
    {
        if self.plan.next_fails(DeskCall::Read) {
            return Err(self.faults.reading_failed());
        }
        match self.read_on(slot, buf) {
            Some(count) => Ok(count),
            None => Err(self.faults.reading_failed()),
        }
    }

    fn begin_log(&mut self, name: &str) -> Result<(), Failed>
        ensures ok { OnOk result (memory_state self.new ≡ log_begun name.now (memory_state self.old)) }
        ensures err { OnErr result (Asks Asked.Log name.now (memory_state self.old) (memory_state self.new)) }
        ensures cause { WriteCause (memory_faults self.old) (memory_faults self.new) (is_err result) }
        ensures once { OnErr result (memory_faults self.new ≡ write_failed (memory_faults self.old)) }
        ensures planned { IsTrue (is_planned DeskCall.BeginLog (memory_plan self.old)) → IsErr result }
        ensures counted { memory_plan self.new ≡ counted DeskCall.BeginLog (memory_plan self.old) }
    {
        if self.plan.next_fails(DeskCall::BeginLog) {
            return Err(self.faults.writing_failed());
        }
        match ask(self.alloc, &mut self.asked, Asked::Log, name) {
            Ok(()) => {
                self.log = Some(Logged::new(self.alloc));
                Ok(())
            }
            Err(_) => Err(self.faults.writing_failed()),
        }
    }

    fn write(&mut self, to: To, piece: &[u8]) -> Result<usize, Failed>
        requires begun { to ≡ To.Log → IsTrue (memory_state self.old).log.begun }
        requires some { 0 < length piece.now }
        ensures ok { IfOk result (Writes to piece.now (memory_state self.old) (memory_state self.new)) }
        ensures err { OnErr result (memory_state self.new ≡ memory_state self.old) }
        ensures cause { WriteCause (memory_faults self.old) (memory_faults self.new) (is_err result) }
        ensures once { OnErr result (memory_faults self.new ≡ write_failed (memory_faults self.old)) }

        // It writes the whole piece, and fails where it was told to.
        ensures count { IfOk result (λ n. n ≡ length piece.now) }
        ensures planned { IsTrue (is_planned (write_call_of to) (memory_plan self.old)) → IsErr result }
        ensures counted { memory_plan self.new ≡ counted (write_call_of to) (memory_plan self.old) }
    {
        if self.plan.next_fails(write_call(to)) {
            return Err(self.faults.writing_failed());
        }
        match self.append(to, piece) {
            Some(count) => Ok(count),
            None => Err(self.faults.writing_failed()),
        }
    }
}

// Which calls of a memory desk are to fail.
ghost use Rattle.std.specs.Prelude.{◌≡◌, OnOk, OnErr};
ghost use Rattle.desk.specs.Plan.{write_call_of};

use crate::To;
use std::alloc::{AllocError, Global};

/// The kinds of calls that a memory desk can be told to fail. Reads are counted over both slots together.
#[derive(Clone, Copy, Debug, PartialEq, Eq)]
pub enum DeskCall {
    BeginRead,
    Read,
    BeginLog,
    WriteOut,
    WriteLog,
}

// The calls of one kind: how many were made, and the numbers of those that are to fail, counted from 1. These are few.
#[derive(Drop)]
pub(crate) struct Calls {
    made: u64,
    failing: Vec<u64>,
}

#[derive(Drop)]
pub(crate) struct FailurePlan {
    begin_read: Calls,
    read: Calls,
    begin_log: Calls,
    write_out: Calls,
    write_log: Calls,
}

impl Calls {
    ghost use Rattle.std.specs.Prelude.{[], ◌∷◌, ◌++◌};
    ghost use Rattle.desk.specs.Causes.{one_more};
    ghost use Rattle.desk.specs.Plan.{is_next};
    ghost use Rattle.desk.specs.MemoryDesk.{call_plan};

    fn new(alloc: Global) -> Calls
        ensures { call_plan result ≡ record { made = 0; failing = [] } }
    {
        Calls {
            made: 0,
            failing: Vec::new(alloc),
        }
    }

    fn next_fails(&mut self) -> bool
        ensures made { call_plan self.new ≡ record (call_plan self.old) { made = one_more (call_plan self.old).made } }
        ensures planned { result ≡ is_next (call_plan self.old) }
    {
        let Some(number) = self.made.checked_add(1) else {
            return false;
        };
        self.made = number;
        self.failing.contains(&number)
    }

    fn fail_at(&mut self, number: u64) -> Result<(), AllocError>
        ensures ok { OnOk result (call_plan self.new ≡ record (call_plan self.old) { failing = (call_plan self.old).failing ++ number ∷ [] }) }
        ensures err { OnErr result (call_plan self.new ≡ call_plan self.old) }
    {
        self.failing.push(number)?;
        Ok(())
    }
}

impl FailurePlan {
    ghost use Rattle.std.specs.Prelude.{[]};
    ghost use Rattle.desk.specs.Plan.{CallPlan, counted, is_planned, no_plan, planning};
    ghost use Rattle.desk.specs.MemoryDesk.{plan_of};

    pub fn new(alloc: Global) -> FailurePlan
        ensures { plan_of result ≡ no_plan }
    {
        FailurePlan {
            begin_read: Calls::new(alloc),
            read: Calls::new(alloc),
            begin_log: Calls::new(alloc),
            write_out: Calls::new(alloc),
            write_log: Calls::new(alloc),
        }
    }

    // Counts one more call of this kind, and tells whether it is to fail.
    pub fn next_fails(&mut self, call: DeskCall) -> bool
        ensures counted { plan_of self.new ≡ counted call (plan_of self.old) }
        ensures planned { result ≡ is_planned call (plan_of self.old) }
    {
        match call {
            DeskCall::BeginRead => self.begin_read.next_fails(),
            DeskCall::Read => self.read.next_fails(),
            DeskCall::BeginLog => self.begin_log.next_fails(),
            DeskCall::WriteOut => self.write_out.next_fails(),
            DeskCall::WriteLog => self.write_log.next_fails(),
        }
    }

    pub fn fail_at(&mut self, call: DeskCall, number: u64) -> Result<(), AllocError>
        ensures ok { OnOk result (plan_of self.new ≡ planning call number (plan_of self.old)) }
        ensures err { OnErr result (plan_of self.new ≡ plan_of self.old) }
    {
        match call {
            DeskCall::BeginRead => self.begin_read.fail_at(number),
            DeskCall::Read => self.read.fail_at(number),
            DeskCall::BeginLog => self.begin_log.fail_at(number),
            DeskCall::WriteOut => self.write_out.fail_at(number),
            DeskCall::WriteLog => self.write_log.fail_at(number),
        }
    }
}

pub(crate) fn write_call(to: To) -> DeskCall
    ensures { result ≡ write_call_of to }
{
    match to {
        To::Out => DeskCall::WriteOut,
        To::Log => DeskCall::WriteLog,
    }
}

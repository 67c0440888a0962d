// Counts of faults, which stop at their last value.
ghost use Rattle.std.specs.Prelude.{◌≡◌, ◌+◌, ◌-◌, ◌^◌, min, true};
ghost use Rattle.desk.specs.Causes.{ReadCause, WriteCause, read_failed, write_failed};
ghost use Rattle.desk.specs.FaultCounts.{faults_of};

use crate::Failed;

#[derive(Clone, Copy)]
pub(crate) struct FaultCounts {
    pub reads: u64,
    pub writes: u64,
}

impl FaultCounts {
    pub fn reading_failed(&mut self) -> Failed
        ensures once { faults_of self.new ≡ read_failed (faults_of self.old) }
        ensures cause { ReadCause (faults_of self.old) (faults_of self.new) true }
    {
        self.reads = self.reads.saturating_add(1);
        Failed
    }

    pub fn writing_failed(&mut self) -> Failed
        ensures once { faults_of self.new ≡ write_failed (faults_of self.old) }
        ensures cause { WriteCause (faults_of self.old) (faults_of self.new) true }
    {
        self.writes = self.writes.saturating_add(1);
        Failed
    }

    pub fn total(&self) -> u64
        ensures { result ≡ min ((faults_of self.now).reads + (faults_of self.now).writes) (2 ^ 64 - 1) }
    {
        self.reads.saturating_add(self.writes)
    }
}

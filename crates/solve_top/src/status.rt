//! How a run ended, as its caller learns it.

ghost use Rattle.std.specs.Prelude.{◌≡◌};

use learn_search::LastState;

/// How a run of `setsolve` ended.
#[derive(Clone, Copy, Debug, PartialEq, Eq)]
pub enum Status {
    /// The block of a solution was printed, or the line that says that there is none, or the lines of the root family.
    Done = 0,
    /// There were 4,000,000 nodes, and one more was wanted: `=====UNKNOWN=====` and `% limit nodes` were printed.
    Nodes = 1,
    /// The words cannot be read, request help, or name no model. The usage line was printed.
    Words = 2,
    /// The text of the model is longer than 67,108,864 bytes, or it has a fault, whose line was printed, or, without
    /// `--root`, its goal is not `satisfy` and so is not solved yet, as was printed.
    File = 3,
    /// The model could not be read, as was printed: the count of failed reads rose.
    ReadFault = 4,
    /// Standard output could not be written: the count of failed writes rose. What was printed is a front of what
    /// another status prints, and nothing more was written.
    WriteFault = 5,
    /// Want of memory: `=====UNKNOWN=====` and `% memory` were printed.
    Memory = 6,
}

impl Status {
    ghost use Rattle.solve_top.specs.Statuses.{status_number};

    /// The number that the program ends with.
    pub fn number(self) -> u8
        ensures { result ≡ status_number self }
    {
        self as u8
    }
}

/// What a run leaves for its caller.
#[derive(Drop)]
pub struct Report {
    pub status: Status,
    /// The nodes of the search and its pins, where the status is `Nodes`, and else None.
    pub stop: Option<LastState>,
}

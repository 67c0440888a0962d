//! How a run is to end: its status, and what it prints last.

ghost use Rattle.std.specs.Prelude.{◌≡◌};
ghost use Rattle.solve_top.specs.Endings.{ending_status, ending_text, ending_stop};

use crate::status::Status;
use learn_search::LastState;

/// How a run ends, before it prints anything.
#[derive(Drop)]
pub enum Ending {
    /// These bytes answer what was asked.
    Answered(Vec<u8>),
    /// There was no room for a further node of a diagram. These nodes there are, and these of them are pinned.
    Nodes(LastState),
    /// The text of the model is too long.
    TooLong,
    /// The line for the first fault of the text.
    Faulty(Vec<u8>),
    /// The goal is not `satisfy`.
    NotBuilt,
    Words,
    ReadFault,
    Memory,
}

impl Ending {
    /// The status of a run that ends so.
    pub fn status(&self) -> Status
        ensures { result ≡ ending_status self.now }
    {
        match self {
            Ending::Answered(_) => Status::Done,
            Ending::Nodes(_) => Status::Nodes,
            Ending::TooLong => Status::File,
            Ending::Faulty(_) => Status::File,
            Ending::NotBuilt => Status::File,
            Ending::Words => Status::Words,
            Ending::ReadFault => Status::ReadFault,
            Ending::Memory => Status::Memory,
        }
    }

    /// What a run that ends so prints.
    pub fn text(&self) -> &[u8]
        ensures { result.now ≡ ending_text self.now }
    {
        match self {
            Ending::Answered(bytes) => bytes.as_slice(),
            Ending::Nodes(_) => b"=====UNKNOWN=====\n% limit nodes\n",
            Ending::TooLong => b"% error: text too long\n",
            Ending::Faulty(line) => line.as_slice(),
            Ending::NotBuilt => b"% error: not built yet\n",
            Ending::Words => b"% usage: setsolve [--root] MODEL\n",
            Ending::ReadFault => b"% read fault\n",
            Ending::Memory => b"=====UNKNOWN=====\n% memory\n",
        }
    }

    /// The state of the search, where its nodes ran out.
    pub fn stop(self) -> Option<LastState>
        ensures { result ≡ ending_stop self }
    {
        match self {
            Ending::Nodes(last) => Some(last),
            Ending::Answered(_) => None,
            Ending::TooLong => None,
            Ending::Faulty(_) => None,
            Ending::NotBuilt => None,
            Ending::Words => None,
            Ending::ReadFault => None,
            Ending::Memory => None,
        }
    }
}

//! How a check can end, with its status and what it prints.

ghost use Rattle.std.specs.Prelude.{◌≡◌};
ghost use Rattle.check_top.specs.Endings.{ending_status, ending_text};

use crate::running::CheckStatus;

/// How a check ends, before it prints anything.
#[derive(Drop)]
pub enum Ending {
    /// The line that says that the log is accepted.
    Accepted(Vec<u8>),
    /// The line that names what is refused.
    Refused(Vec<u8>),
    /// The text of the model is too long.
    TooLong,
    /// The line for the first fault of the model's text.
    Faulty(Vec<u8>),
    Words,
    ReadFault,
    Memory,
}

impl Ending {
    /// The status of a check that ends so.
    pub fn status(&self) -> CheckStatus
        ensures { result ≡ ending_status self.now }
    {
        match self {
            Ending::Accepted(_) => CheckStatus::Accepted,
            Ending::Refused(_) => CheckStatus::Refused,
            Ending::TooLong => CheckStatus::File,
            Ending::Faulty(_) => CheckStatus::File,
            Ending::Words => CheckStatus::Words,
            Ending::ReadFault => CheckStatus::ReadFault,
            Ending::Memory => CheckStatus::Memory,
        }
    }

    /// What a check that ends so prints.
    pub fn text(&self) -> &[u8]
        ensures { result.now ≡ ending_text self.now }
    {
        match self {
            Ending::Accepted(line) => line.as_slice(),
            Ending::Refused(line) => line.as_slice(),
            Ending::TooLong => b"% error: text too long\n",
            Ending::Faulty(line) => line.as_slice(),
            Ending::Words => b"% usage: setcheck MODEL LOG\n",
            Ending::ReadFault => b"% read fault\n",
            Ending::Memory => b"% memory\n",
        }
    }
}

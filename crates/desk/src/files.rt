// One step in a file of a real desk.
ghost use Rattle.std.specs.Prelude.{◌≡◌, ◌+◌, ◌<◌, ◌≤◌, length, take, IsTrue, IfSome, IfNone};
ghost use Rattle.desk.specs.Opened.{Moves};
ghost use Rattle.desk.specs.RealDesk.{real_reading, real_logging};

use crate::counted::Counted;
use std::io::{Read, Write};

pub(crate) fn read_file<F: Read>(file: &mut Option<Counted<F>>, buf: &mut [u8]) -> Option<usize>
    requires { IsTrue (real_reading file.old).begun }
    ensures moves { IfSome result (Moves (real_reading file.old) (real_reading file.new) buf.new) }
    ensures kept { IfNone result (real_reading file.new ≡ real_reading file.old) }
{
    match file {
        Some(file) => file.read(buf),
        None => unreachable!(),
    }
}

pub(crate) fn write_file<F: Write>(file: &mut Option<Counted<F>>, piece: &[u8]) -> Option<usize>
    requires { IsTrue (real_logging file.old).begun }
    ensures some { IfSome result (λ n. 0 < n) }
    ensures within { IfSome result (λ n. n ≤ length piece.now) }
    ensures logged { IfSome result (λ n. real_logging file.new ≡ record (real_logging file.old) { logged = (real_logging file.old).logged + n }) }
    ensures kept { IfNone result (real_logging file.new ≡ real_logging file.old) }
{
    match file {
        Some(file) => file.write(piece),
        None => unreachable!(),
    }
}

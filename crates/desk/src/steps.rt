// One step in a text, in the log or in the output of a memory desk, which may not be there yet.
ghost use Rattle.std.specs.Prelude.{◌≡◌, ◌+◌, ◌<◌, ◌^◌, [], ◌++◌, OnSome, Some, length, min, take, unwrap_or, IsTrue, IfSome, IfNone};
ghost use Rattle.desk.specs.Opened.{reading_of, logging_of, Moves};

use crate::opened::{Logged, Opened};

// Reads on in a text that was begun, unless the bound would be passed.
pub(crate) fn read_on(opened: &mut Option<Opened>, buf: &mut [u8]) -> Option<usize>
    requires begun { IsTrue (reading_of opened.old).begun }
    requires room { 0 < length buf.old }
    ensures count { IfSome result (λ n. n ≡ min (length (unwrap_or (reading_of opened.old).left [])) (length buf.old)) }
    ensures moves { IfSome result (Moves (reading_of opened.old) (reading_of opened.new) buf.new) }
    ensures past { IfNone result (2 ^ 40 < (reading_of opened.old).given + min (length (unwrap_or (reading_of opened.old).left [])) (length buf.old)) }
    ensures kept { IfNone result (reading_of opened.new ≡ reading_of opened.old) }
{
    match opened {
        Some(text) => text.read(buf),
        None => unreachable!(),
    }
}

// Appends to a log that was begun, unless the bound would be passed or memory is refused.
pub(crate) fn append_log(log: &mut Option<Logged>, piece: &[u8]) -> Option<usize>
    requires { IsTrue (logging_of log.old).begun }
    ensures count { IfSome result (λ n. n ≡ length piece.now) }
    ensures text { OnSome result ((logging_of log.new).text ≡ Some (unwrap_or (logging_of log.old).text [] ++ piece.now)) }
    ensures logged { OnSome result ((logging_of log.new).logged ≡ (logging_of log.old).logged + length piece.now) }
    ensures begun { IsTrue (logging_of log.new).begun }
    ensures kept { IfNone result (logging_of log.new ≡ logging_of log.old) }
{
    match log {
        Some(log) => log.append(piece),
        None => unreachable!(),
    }
}

// Appends to the output, unless memory is refused.
pub(crate) fn append_out(out: &mut Vec<u8>, piece: &[u8]) -> Option<usize>
    ensures count { IfSome result (λ n. n ≡ length piece.now) }
    ensures some { OnSome result (out.new.items ≡ out.old.items ++ piece.now) }
    ensures kept { IfNone result (out.new.items ≡ out.old.items) }
{
    match out.extend_from_slice(piece) {
        Ok(()) => Some(piece.len()),
        Err(_) => None,
    }
}

// Whole texts, read and written through the calls of a desk.
ghost use Rattle.std.specs.Prelude.{◌≡◌, ◌+◌, ◌<◌, ◌≤◌, ◌^◌, ◌++◌, length, take, IsTrue, IfOk, OnOk, OnErr, IsErrOf, vec_len};
ghost use Rattle.std.specs.Result.{is_err};
ghost use Rattle.desk.specs.State.{reading, written};
ghost use Rattle.desk.specs.Causes.{ReadCause, WriteCause};
ghost use Rattle.desk.specs.Calls.{Reads};
ghost use Rattle.desk.specs.Texts.{TakesAll, Takes, TakesUpTo, WritesFront, has_failed};
ghost use Rattle.desk.specs.declared.texts.ReadEnd.TheVariants as ends;

use crate::{Desk, Failed, Slot, To};
use std::alloc::{AllocError, Global};
use thiserror::Error;

/// Why a text was not read: the desk has failed, the text is longer than the limit, or memory was refused.
#[derive(Clone, Copy, Debug, PartialEq, Eq, Error)]
pub enum ReadEnd {
    #[error("the desk has failed")]
    Failed,
    #[error("the text is too long")]
    TooLong,
    #[error("out of memory")]
    Memory,
}

impl From<Failed> for ReadEnd {
    ghost from_gives = { λ _ e. e ≡ ends.Failed };

    fn from(_: Failed) -> ReadEnd {
        ReadEnd::Failed
    }
}

impl From<AllocError> for ReadEnd {
    ghost from_gives = { λ _ e. e ≡ ends.Memory };

    fn from(_: AllocError) -> ReadEnd {
        ReadEnd::Memory
    }
}

// How many bytes are asked for at a time.
const CHUNK: usize = 65536;

/// Reads all that is left in a slot that was begun, at most `limit` bytes. TooLong comes where more than `limit` bytes
/// were left, of which `limit + 1` are then taken. Failed comes only where a read of the desk failed, and Memory where
/// memory was refused: the bytes taken so far are then lost, at most `limit + 1`.
pub fn read_text<D: Desk>(
    alloc: Global,
    desk: &mut D,
    slot: Slot,
    limit: usize,
) -> Result<Vec<u8>, ReadEnd>
    requires begun { IsTrue (reading slot (D.state desk.old)).begun }
    requires limit { limit < 2 ^ 40 }
    ensures ok { IfOk result (λ text. TakesAll slot limit (D.state desk.old) (D.state desk.new) text.items) }
    ensures too_long { IsErrOf result ReadEnd.TooLong → Takes slot (limit + 1) (D.state desk.old) (D.state desk.new) }
    ensures err { OnErr result (TakesUpTo slot (limit + 1) (D.state desk.old) (D.state desk.new)) }
    ensures cause { ReadCause (D.faults desk.old) (D.faults desk.new) (has_failed result) }
{
    let mut chunk = chunk_of(alloc, CHUNK)?;
    let mut text = Vec::new(alloc);
    while text.len() <= limit {
        let most = (limit + 1 - text.len()).min(CHUNK);
        let count = read_more(desk, slot, &mut chunk[..most], &mut text)?;
        if count == 0 {
            return Ok(text);
        }
    }
    Err(ReadEnd::TooLong)
}

// Reads once into the buffer, and appends what came to the text.
fn read_more<D: Desk>(
    desk: &mut D,
    slot: Slot,
    buffer: &mut [u8],
    text: &mut Vec<u8>,
) -> Result<usize, ReadEnd>
    requires begun { IsTrue (reading slot (D.state desk.old)).begun }
    requires room { 0 < length buffer.old }
    ensures ok { IfOk result (Reads slot (D.state desk.old) (D.state desk.new) buffer.new) }
    ensures text { IfOk result (λ n. text.new.items ≡ text.old.items ++ take n buffer.new) }
    ensures not_long { IsErrOf result ReadEnd.TooLong → ⊥ }
    ensures err { OnErr result (TakesUpTo slot (length buffer.old) (D.state desk.old) (D.state desk.new)) }
    ensures cause { ReadCause (D.faults desk.old) (D.faults desk.new) (has_failed result) }
{
    let count = desk.read(slot, buffer)?;
    text.extend_from_slice(&buffer[..count])?;
    Ok(count)
}

fn chunk_of(alloc: Global, len: usize) -> Result<Vec<u8>, AllocError>
    ensures len { IfOk result (λ chunk. vec_len chunk ≡ len) }
{
    vec![in alloc; 0; len]
}

/// Writes the whole piece to standard output, or to the log if that was begun. Failed comes only where a write of the desk
/// failed: a front of the piece is written then. It takes no memory of its own, and an empty piece calls nothing.
pub fn write_text<D: Desk>(desk: &mut D, to: To, piece: &[u8]) -> Result<(), Failed>
    requires begun { to ≡ To.Log → IsTrue (D.state desk.old).log.begun }
    ensures ok { OnOk result (D.state desk.new ≡ written to piece.now (D.state desk.old)) }
    ensures err { OnErr result (WritesFront to piece.now (D.state desk.old) (D.state desk.new)) }
    ensures empty { length piece.now ≡ 0 → desk.new ≡ desk.old }
    ensures cause { WriteCause (D.faults desk.old) (D.faults desk.new) (is_err result) }
{
    let mut at = 0;
    while at < piece.len() {
        at += desk.write(to, &piece[at..])?;
    }
    Ok(())
}

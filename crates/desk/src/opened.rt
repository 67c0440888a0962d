// A text that a memory desk hands out from its place on, and the log that it keeps. Both pass no more than 2 ^ 40 bytes.
ghost use Rattle.std.specs.Prelude.{◌≤◌, ◌^◌, vec_len};

use std::alloc::{AllocError, Global};

// The most bytes that are handed out or logged since a begin call.
const BOUND: usize = 1 << 40;

#[derive(Drop)]
pub(crate) struct Opened {
    text: Vec<u8>,
    at: usize,
    ghost within: { at ≤ vec_len text },
    ghost bound: { at ≤ 2 ^ 40 },
}

#[derive(Drop)]
pub(crate) struct Logged {
    bytes: Vec<u8>,
    ghost bound: { vec_len bytes ≤ 2 ^ 40 },
}

impl Opened {
    ghost use Rattle.std.specs.Prelude.{◌≡◌, ◌+◌, ◌-◌, ◌<◌, length, min, IfOk, IfSome, IfNone, Some, true};
    ghost use Rattle.desk.specs.Opened.{reading_of, Moves};

    pub fn new(alloc: Global, text: &[u8]) -> Result<Opened, AllocError>
        ensures { IfOk result (λ o. reading_of (Some o) ≡ record { begun = true; given = 0; left = Some text.now }) }
    {
        Ok(Opened {
            text: Vec::from_slice(alloc, text)?,
            at: 0,
        })
    }

    // Moves as many bytes as are left and fit the buffer, unless the bound would be passed.
    pub fn read(&mut self, buf: &mut [u8]) -> Option<usize>
        requires { 0 < length buf.old }
        ensures count { IfSome result (λ n. n ≡ min (vec_len self.old.text - self.old.at) (length buf.old)) }
        ensures moves { IfSome result (Moves (reading_of (Some self.old)) (reading_of (Some self.new)) buf.new) }
        ensures past { IfNone result (2 ^ 40 < self.old.at + min (vec_len self.old.text - self.old.at) (length buf.old)) }
        ensures kept { IfNone result (reading_of (Some self.new) ≡ reading_of (Some self.old)) }
    {
        let count = (self.text.len() - self.at).min(buf.len());
        if count > BOUND - self.at {
            return None;
        }
        buf[..count].copy_from_slice(&self.text[self.at..self.at + count]);
        self.at += count;
        Some(count)
    }
}

impl Logged {
    ghost use Rattle.std.specs.Prelude.{◌≡◌, ◌+◌, ◌<◌, ◌++◌, [], length, IfSome, OnSome, IfNone};

    pub fn new(alloc: Global) -> Logged
        ensures { result.bytes.items ≡ [] }
    {
        Logged {
            bytes: Vec::new(alloc),
        }
    }

    // Appends the piece, unless the bound would be passed or memory is refused.
    pub fn append(&mut self, piece: &[u8]) -> Option<usize>
        ensures count { IfSome result (λ n. n ≡ length piece.now) }
        ensures appended { OnSome result (self.new.bytes.items ≡ self.old.bytes.items ++ piece.now) }
        ensures kept { IfNone result (self.new.bytes.items ≡ self.old.bytes.items) }
    {
        if piece.len() > BOUND - self.bytes.len() {
            return None;
        }
        match self.bytes.extend_from_slice(piece) {
            Ok(()) => Some(piece.len()),
            Err(_) => None,
        }
    }

    pub fn bytes(&self) -> &[u8]
        ensures { result.now ≡ self.now.bytes.items }
    {
        &self.bytes
    }
}

// The lines of a text, read one by one.
ghost use Rattle.std.specs.Prelude.{◌+◌, ◌≤◌, vec_len};

use crate::{Desk, ReadEnd, Slot};
use memchr::memchr;
use std::alloc::{AllocError, Global};

// The most bytes of a line, its newline not counted.
const LINE_LIMIT: usize = 67_108_864;

// How many bytes are asked for at a time.
const CHUNK: usize = 65536;

/// What stands where the next line was looked for.
#[derive(Clone, Copy, Debug, PartialEq, Eq)]
pub enum LineEnd {
    /// A line that a newline ends.
    Line,
    /// At least one byte, and then the end of the text without a newline.
    Unended,
    /// The end of the text.
    End,
}

/// The lines of the text in one slot, read one by one: each value of this type is for one slot from its begin call on.
/// It reads ahead, so that a call of the desk serves many lines, and holds the line that was given last.
/// Its time is linear in the bytes that are read, and its memory in the longest line.
#[derive(Drop)]
pub struct Lines {
    // What a read of the desk puts in front of it, and the bytes kept of what was read.
    chunk: Vec<u8>,
    held: Vec<u8>,
    // Where the line begins among the bytes held, and how long it is.
    line_at: usize,
    line_len: usize,
    // Where the bytes begin that are not yet given.
    at: usize,
    ghost line_within: { line_at + line_len ≤ vec_len held },
    ghost within: { at ≤ vec_len held },
}

impl Lines {
    ghost use Rattle.std.specs.Prelude.{◌≡◌, ◌↔◌, ◌+◌, ◌<◌, ◌≤◌, [], ◌++◌, length, take, drop, vec_len, vec_capacity, IsTrue, IfOk, OnOk, OnErr, IfSome, IfNone, IsErrOf, Some, false};
    ghost use Rattle.std.specs.List.{position_or_len, before_first};
    ghost use Rattle.desk.specs.State.{reading};
    ghost use Rattle.desk.specs.Causes.{ReadCause};
    ghost use Rattle.desk.specs.Calls.{Reads};
    ghost use Rattle.desk.specs.Texts.{has_failed};
    ghost use Rattle.desk.specs.Lines.{line_limit, is_newline, line_of, unread, left_for, Gives, given_count, Passes, EndsAt, ReadsOn, RestEnd};

    /// Lines of which none was read. Takes no memory; `alloc` is for the bytes that later calls hold.
    pub fn new(alloc: Global) -> Lines
        ensures unread { unread result ≡ [] }
        ensures line { line_of result ≡ [] }
    {
        Lines {
            chunk: Vec::new(alloc),
            held: Vec::new(alloc),
            line_at: 0,
            line_len: 0,
            at: 0,
        }
    }

    /// The line that the last call of [`Lines::next_line`] gave, without its newline: empty before the first call,
    /// and after one that answered End or an `Err`. Takes no memory.
    pub fn line(&self) -> &[u8]
        ensures { result.now ≡ line_of self.now }
    {
        &self.held[self.line_at..self.line_at + self.line_len]
    }

    /// Reads the next line of `slot`, which was begun: [`Lines::line`] gives it then. TooLong comes where it has more
    /// than 67,108,864 bytes, Failed only where a read of the desk failed, and Memory where memory was refused. After
    /// each of these what is left is as before, so that the same line may be asked for again.
    pub fn next_line<D: Desk>(&mut self, desk: &mut D, slot: Slot) -> Result<LineEnd, ReadEnd>
        requires begun { IsTrue (reading slot (D.state desk.old)).begun }
        ensures ok { IfOk result (λ end. Gives end
            (left_for slot (D.state desk.old) (unread self.old))
            (left_for slot (D.state desk.new) (unread self.new))
            (line_of self.new)) }
        ensures too_long { IsErrOf result ReadEnd.TooLong
            → IfSome (left_for slot (D.state desk.old) (unread self.old))
            (λ xs. line_limit < length (before_first is_newline xs)) }
        ensures err { OnErr result
            (left_for slot (D.state desk.new) (unread self.new)
            ≡ left_for slot (D.state desk.old) (unread self.old)) }
        ensures no_line { OnErr result (line_of self.new ≡ []) }
        ensures passes { Passes slot (D.state desk.old) (D.state desk.new)
            (length (unread self.old)) (given_count result (line_of self.new) + length (unread self.new)) }
        ensures cause { ReadCause (D.faults desk.old) (D.faults desk.new) (has_failed result) }
    {
        self.line_len = 0;
        match self.find_end(desk, slot) {
            Ok(Some(len)) => {
                self.give_line(len);
                Ok(LineEnd::Line)
            }
            Ok(None) => Ok(self.give_rest()),
            Err(end) => Err(end),
        }
    }

    fn unread(&self) -> &[u8]
        ensures { result.now ≡ unread self.now }
    {
        &self.held[self.at..]
    }

    // Reads on until the unread bytes have a newline, and tells how many bytes stand before it. None is the end of
    // the text.
    fn find_end<D: Desk>(&mut self, desk: &mut D, slot: Slot) -> Result<Option<usize>, ReadEnd>
        requires begun { IsTrue (reading slot (D.state desk.old)).begun }
        requires no_line { self.old.line_len ≡ 0 }
        ensures ok { IfOk result (λ end. EndsAt end (unread self.new) (reading slot (D.state desk.new)).left) }
        ensures too_long { IsErrOf result ReadEnd.TooLong
            → IfSome (left_for slot (D.state desk.old) (unread self.old))
            (λ xs. line_limit < length (before_first is_newline xs)) }
        ensures left { left_for slot (D.state desk.new) (unread self.new)
            ≡ left_for slot (D.state desk.old) (unread self.old) }
        ensures no_line { self.new.line_len ≡ 0 }
        ensures passes { Passes slot (D.state desk.old) (D.state desk.new)
            (length (unread self.old)) (length (unread self.new)) }
        ensures cause { ReadCause (D.faults desk.old) (D.faults desk.new) (has_failed result) }
    {
        let mut searched = 0;
        loop {
            if let Some(len) = self.newline_behind(searched) {
                return Lines::within_limit(len);
            }
            searched = self.unread().len();
            if searched > LINE_LIMIT {
                return Err(ReadEnd::TooLong);
            }
            let count = self.read_more(desk, slot)?;
            if count == 0 {
                return Ok(None);
            }
        }
    }

    // How many bytes stand before the first newline of the unread bytes. The first `searched` have none.
    fn newline_behind(&self, searched: usize) -> Option<usize>
        requires within { searched ≤ length (unread self.now) }
        requires passed { searched ≤ position_or_len is_newline (unread self.now) }
        ensures some { IfSome result (λ n. n ≡ position_or_len is_newline (unread self.now)) }
        ensures there { IfSome result (λ n. n < length (unread self.now)) }
        ensures none { IfNone result
            (position_or_len is_newline (unread self.now) ≡ length (unread self.now)) }
    {
        match memchr(b'\n', &self.unread()[searched..]) {
            Some(n) => Some(searched + n),
            None => None,
        }
    }

    // Reads once, and keeps what comes behind the unread bytes.
    fn read_more<D: Desk>(&mut self, desk: &mut D, slot: Slot) -> Result<usize, ReadEnd>
        requires begun { IsTrue (reading slot (D.state desk.old)).begun }
        requires no_line { self.old.line_len ≡ 0 }
        ensures ok { IfOk result (λ n. ReadsOn slot (D.state desk.old) (D.state desk.new)
            (unread self.old) (unread self.new) n) }
        ensures not_long { IsErrOf result ReadEnd.TooLong → ⊥ }
        ensures err { OnErr result (D.state desk.new ≡ D.state desk.old) }
        ensures kept { OnErr result (unread self.new ≡ unread self.old) }
        ensures no_line { self.new.line_len ≡ 0 }
        ensures cause { ReadCause (D.faults desk.old) (D.faults desk.new) (has_failed result) }
    {
        self.make_room()?;
        let count = desk.read(slot, &mut self.chunk)?;
        if count > 0 {
            self.keep(count);
        }
        Ok(count)
    }

    // Has the unread bytes in front, and room for as many more as a read may give.
    fn make_room(&mut self) -> Result<(), AllocError>
        requires no_line { self.old.line_len ≡ 0 }
        ensures unread { unread self.new ≡ unread self.old }
        ensures no_line { self.new.line_len ≡ 0 }
        ensures chunk { OnOk result (vec_len self.new.chunk ≡ 65536) }
        ensures room { OnOk result (vec_len self.new.held + 65536 ≤ vec_capacity self.new.held) }
    {
        self.move_to_front();
        self.chunk.resize(CHUNK, 0)?;
        self.held.reserve(CHUNK)
    }

    fn move_to_front(&mut self)
        requires no_line { self.old.line_len ≡ 0 }
        ensures unread { unread self.new ≡ unread self.old }
        ensures no_line { self.new.line_len ≡ 0 }
    {
        if self.at == 0 {
            return;
        }
        let len = self.held.len();
        self.held.copy_within(self.at..len, 0);
        self.held.truncate(len - self.at);
        self.line_at = 0;
        self.at = 0;
    }

    // Keeps the first bytes of the chunk. There is room for them.
    fn keep(&mut self, count: usize)
        requires within { count ≤ vec_len self.old.chunk }
        requires room { vec_len self.old.held + count ≤ vec_capacity self.old.held }
        ensures unread { unread self.new ≡ unread self.old ++ take count self.old.chunk.items }
        ensures line { self.new.line_len ≡ self.old.line_len }
    {
        self.held.extend_from_slice(&self.chunk[..count]).unwrap();
    }

    // Gives the unread bytes before a newline, which is passed.
    fn give_line(&mut self, len: usize)
        requires { len < length (unread self.old) }
        ensures line { line_of self.new ≡ take len (unread self.old) }
        ensures unread { unread self.new ≡ drop (len + 1) (unread self.old) }
    {
        self.line_at = self.at;
        self.line_len = len;
        self.at += len + 1;
    }

    // Gives all unread bytes, if there are any.
    fn give_rest(&mut self) -> LineEnd
        ensures line { line_of self.new ≡ unread self.old }
        ensures unread { unread self.new ≡ [] }
        ensures end { RestEnd result (unread self.old) }
    {
        self.line_at = self.at;
        self.line_len = self.held.len() - self.at;
        self.at = self.held.len();
        if self.line_len > 0 {
            return LineEnd::Unended;
        }
        LineEnd::End
    }

    // The length of a line, unless it is too long.
    fn within_limit(len: usize) -> Result<Option<usize>, ReadEnd>
        ensures ok { IfOk result (λ end. end ≡ Some len) }
        ensures fits { OnOk result (len ≤ line_limit) }
        ensures too_long { IsErrOf result ReadEnd.TooLong → line_limit < len }
        ensures not_failed { has_failed result ≡ false }
    {
        if len > LINE_LIMIT {
            return Err(ReadEnd::TooLong);
        }
        Ok(Some(len))
    }
}

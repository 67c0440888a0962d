// An opened file of a real desk, with the number of bytes that it gave or took since it was opened: at most 2 ^ 40.
ghost use Rattle.std.specs.Prelude.{◌≤◌, ◌^◌};

use std::io::{Read, Write};

// The most bytes that are given or taken.
const BOUND: u64 = 1 << 40;

#[derive(Drop)]
pub(crate) struct Counted<F> {
    file: F,
    count: u64,
    ghost bound: { count ≤ 2 ^ 40 },
}

impl<F> Counted<F> {
    ghost use Rattle.std.specs.Prelude.{◌≡◌, ◌+◌, ◌<◌, length, IfSome, IfNone};

    pub fn new(file: F) -> Counted<F>
        ensures { result.count ≡ 0 }
    {
        Counted { file, count: 0 }
    }

    // Reads once, no more than the bound leaves. An error, or no room, is None.
    //
    // It is not inlined: clang then takes the count for more than 0, and a caller's test for the end of the file is lost.
    #[inline(never)]
    pub fn read(&mut self, buf: &mut [u8]) -> Option<usize>
    where
        F: Read,
        ensures within { IfSome result (λ n. n ≤ length buf.old) }
        ensures counted { IfSome result (λ n. self.new.count ≡ self.old.count + n) }
        ensures kept { IfNone result (self.new.count ≡ self.old.count) }
    {
        let room = buf.len().min(self.room());
        if room == 0 {
            return None;
        }
        match self.file.read(&mut buf[..room]) {
            Ok(n) => Some(self.pass(n)),
            Err(_) => None,
        }
    }

    // Writes once, no more than the bound leaves. An error, no byte, or no room, is None.
    pub fn write(&mut self, piece: &[u8]) -> Option<usize>
    where
        F: Write,
        ensures some { IfSome result (λ n. 0 < n) }
        ensures within { IfSome result (λ n. n ≤ length piece.now) }
        ensures counted { IfSome result (λ n. self.new.count ≡ self.old.count + n) }
        ensures kept { IfNone result (self.new.count ≡ self.old.count) }
    {
        let room = piece.len().min(self.room());
        if room == 0 {
            return None;
        }
        match self.file.write(&piece[..room]) {
            Ok(0) => None,
            Ok(n) => Some(self.pass(n)),
            Err(_) => None,
        }
    }

    fn room(&self) -> usize
        ensures { result + self.now.count ≡ 2 ^ 40 }
    {
        (BOUND - self.count) as usize
    }

    fn pass(&mut self, n: usize) -> usize
        requires { self.old.count + n ≤ 2 ^ 40 }
        ensures same { result ≡ n }
        ensures counted { self.new.count ≡ self.old.count + n }
    {
        self.count += n as u64;
        n
    }
}

// The lines of a source.
ghost use Rattle.std.specs.Prelude.{◌≡◌, ◌+◌, ◌^◌, ◌<◌, ◌≤◌, ◌++◌, [], ◌∷◌, List, ℕ, Bool, true, false, length, vec_len, IsTrue, IfOk, IfErr, OnOk, OnErr};
ghost use Rattle.std.specs.Vec.{vec_capacity};
ghost use Rattle.ip_app.specs.Lines.{HasNoLineFeed, longest_line};
ghost use Rattle.ip_app.specs.Reading.{FindsLineFeed, FindsNone, Refills, GetsLine, EndsAt};

use crate::statuses::{Bound, Status};
use ip_script::Source;

/// A line may have so many bytes before its line feed.
pub const LONGEST_LINE: usize = 4194304;

/// So many bytes are taken from a source at most.
const MOST_TAKEN: u64 = 1 << 62;

const LINE_FEED: u8 = b'\n';

// So many bytes are asked of a source at once: a page.
const CHUNK: usize = 4096;

/// Cuts what a source gives into lines.
#[derive(Drop)]
pub struct Lines {
    chunk: [u8; CHUNK],
    at: usize,
    end: usize,
    taken: u64,
}

impl Lines {
    ghost use Rattle.ip_app.specs.Pending.{pending, IsReady};

    /// Nothing is taken yet.
    pub fn new() -> Self
        ensures pending { pending result ≡ [] }
        ensures taken { result.taken ≡ 0 }
        ensures ready { IsReady result }
    {
        Lines {
            chunk: [0; CHUNK],
            at: 0,
            end: 0,
            taken: 0,
        }
    }

    // Moves what is pending, as far as the first line feed, to the line's end. True where there is one.
    fn move_to(&mut self, line: &mut Vec<u8>) -> bool
        requires ready { IsReady self.old }
        requires room { vec_len line.old + length (pending self.old) ≤ vec_capacity line.old }
        ensures ready { IsReady self.new }
        ensures found { IsTrue result → FindsLineFeed (pending self.old) (pending self.new) line.old.items line.new.items }
        ensures none { result ≡ false → FindsNone (pending self.old) (pending self.new) line.old.items line.new.items }
        ensures taken { self.new.taken ≡ self.old.taken }
        ensures capacity { vec_capacity line.old ≤ vec_capacity line.new }
    {
        let pending = &self.chunk[self.at..self.end];
        match memchr::memchr(LINE_FEED, pending) {
            Some(n) => {
                line.extend_from_slice(&pending[..n]).unwrap();
                self.at += n + 1;
                true
            }
            None => {
                line.extend_from_slice(pending).unwrap();
                self.at = self.end;
                false
            }
        }
    }

    // Takes more bytes from the source, with `length` bytes of a line so far. `Err` says why there are none.
    fn refill<S: Source>(&mut self, source: &mut S, length: usize) -> Result<(), Status>
        requires ready { IsReady self.old }
        requires pending { pending self.old ≡ [] }
        requires length { length ≤ longest_line + 1 }
        ensures ready { IsReady self.new }
        ensures ok { OnOk result (Refills length S.tells (S.left source.old) (S.left source.new) self.old.taken self.new.taken (pending self.new)) }
        ensures err { IfErr result (λ status. EndsAt status length S.tells (S.left source.old) (S.left source.new) (S.read_faults source.old) (S.read_faults source.new) self.old.taken self.new.taken (pending self.new)) }
        ensures still { OnOk result (S.read_faults source.new ≡ S.read_faults source.old) }
        ensures faults { S.read_faults source.old ≤ S.read_faults source.new }
    {
        if length > LONGEST_LINE {
            return Err(Status::Limit(Bound::Line));
        }
        if self.taken >= MOST_TAKEN {
            return Err(Status::Limit(Bound::Input));
        }
        self.at = 0;
        self.end = 0;
        let room = CHUNK
            .min(LONGEST_LINE + 1 - length)
            .min((MOST_TAKEN - self.taken) as usize);
        let Ok(n) = source.next(&mut self.chunk[..room]) else {
            return Err(Status::ReadFault);
        };
        if n == 0 {
            return Err(if length == 0 {
                Status::Done
            } else {
                Status::Unfinished
            });
        }
        self.end = n;
        self.taken += n as u64;
        Ok(())
    }

    /// Reads the next line, without its line feed, into an empty one that has room for the longest. `Err` says why there is
    /// none: `line` then holds what stands behind the last line feed.
    pub fn next_line<S: Source>(&mut self, source: &mut S, line: &mut Vec<u8>) -> Result<(), Status>
        requires ready { IsReady self.old }
        requires empty { line.old.items ≡ [] }
        requires room { longest_line + 1 ≤ vec_capacity line.old }
        ensures ready { IsReady self.new }
        ensures ok { OnOk result (GetsLine line.new.items S.tells (pending self.old ++ S.left source.old) (pending self.new ++ S.left source.new)) }
        ensures count { OnOk result (self.new.taken + length (pending self.old) ≡ self.old.taken + (length line.new.items + 1) + length (pending self.new)) }
        ensures err { IfErr result (λ status. EndsAt status (length line.new.items) S.tells (S.left source.new) (S.left source.new) (S.read_faults source.old) (S.read_faults source.new) self.new.taken self.new.taken (pending self.new)) }
        ensures rest { OnErr result (HasNoLineFeed line.new.items) }
        ensures bytes { OnErr result (IsTrue S.tells → pending self.old ++ S.left source.old ≡ line.new.items ++ S.left source.new) }
        ensures count_err { OnErr result (self.new.taken + length (pending self.old) ≡ self.old.taken + length line.new.items) }
        ensures still { OnOk result (S.read_faults source.new ≡ S.read_faults source.old) }
        ensures faults { S.read_faults source.old ≤ S.read_faults source.new }
        ensures capacity { vec_capacity line.old ≤ vec_capacity line.new }
    {
        while !self.move_to(line) {
            self.refill(source, line.len())?;
        }
        Ok(())
    }
}

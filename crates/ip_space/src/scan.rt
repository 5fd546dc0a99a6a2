// A walk over the records of a space.
ghost use Rattle.std.specs.Prelude.{◌≡◌, ◌+◌, ◌-◌, ◌≤◌, [], length, IsTrue, IfOk, IfSome, IsErrOf};
ghost use Rattle.ip_space.specs.Faults.{counted_fetch};
ghost use Rattle.ip_ground.specs.Counts.{Counts};
ghost use Rattle.ip_spec.specs.Record.{Fits, spelling};
ghost use Rattle.ip_image.specs.Slot.{newest_version};
ghost use Rattle.ip_space.specs.SpaceView.{OnlyReads, IsReadable, records_of, read_at, byte_at};
ghost use Rattle.ip_space.specs.Fetching.{BlamesPlace};
ghost use Rattle.ip_space.specs.Scanning.{IsCurrent, Moves, Finds, FindsWhole, IsScanBecause};
ghost use Rattle.ip_space.specs.declared.fault.FetchFault.TheVariants as FetchFault;

use crate::ahead::Ahead;
use crate::{FetchFault, Space};
use ip_ground::Ground;
use ip_spec::record::Record;
use std::alloc::Global;
use std::marker::Model;

/// The bytes that are read at once: a mebibyte, or all that is left of a file or of the walk, or more where a record needs more.
const STRETCH: u64 = 1048576;

/// A walk over the records from one offset to another.
#[derive(Drop)]
pub struct Scan {
    alloc: Global,
    next: u64,
    to: u64,
    ahead: Ahead,
}

impl Model for Scan {
    ghost use Rattle.ip_space.specs.ScanView.{ScanView};
    ghost use Rattle.ip_space.specs.Ahead.{held_in, IsAhead};

    ghost Value = { ScanView };

    ghost view = { λ s. record { next = s.next; to = s.to; ahead = held_in s.ahead } };

    ghost invariant = { λ s. IsAhead s.ahead };
}

impl Scan {
    pub(crate) fn new(alloc: Global, from: u64, to: u64) -> Scan
        ensures { result ≡ record { next = from; to = to; ahead = [] } }
    {
        Scan {
            alloc,
            next: from,
            to,
            ahead: Ahead::new(alloc),
        }
    }

    /// The offset of the record that comes next.
    pub fn next(&self) -> u64
        ensures { result ≡ self.now.next }
    {
        self.next
    }

    /// The next record and its offset, or nothing at the end of the walk. It reads a mebibyte at once, or all that is left of the file in which
    /// the record ends, or of the walk, into a buffer that is used again. That has no more than a mebibyte and the bytes of the longest record,
    /// as its head tells them, and none beyond the end. After a fault the walk is where it was.
    pub fn step<G: Ground>(
        &mut self,
        outside: &mut G,
        space: &Space,
    ) -> Result<Option<(u64, Record)>, FetchFault>
        ensures reads { IsTrue G.tells → OnlyReads (G.told outside.old) (G.told outside.new) space.now space.now }
        ensures found { IsTrue G.tells → IsReadable (G.told outside.old) space.now → IsCurrent (G.told outside.old) space.now self.old →
            Finds (records_of (G.told outside.old) space.now) self.old.next result }
        ensures whole { IsTrue G.tells → IsReadable (G.told outside.old) space.now → IsCurrent (G.told outside.old) space.now self.old →
            FindsWhole (byte_at (G.told outside.new) space.now) space.now.layout.end self.old.next result }
        ensures because { IsTrue G.tells → IsReadable (G.told outside.old) space.now → IsCurrent (G.told outside.old) space.now self.old →
            IsScanBecause (read_at (G.told outside.old) space.now self.old.next) result }
        ensures current { IsTrue G.tells → IsReadable (G.told outside.old) space.now → IsCurrent (G.told outside.old) space.now self.old →
            IsCurrent (G.told outside.new) space.now self.new }
        ensures moves { Moves self.old self.new result }
        ensures blames { BlamesPlace self.old.next result }
        ensures bounds { IfOk result (λ found. IfSome found (λ f. Fits newest_version f.1)) }
        ensures inside { IfOk result (λ found. IfSome found (λ f. f.0 + length (spelling f.1) ≤ space.now.layout.end)) }
        ensures counts { Counts counted_fetch result (G.counts_of outside.old) (G.counts_of outside.new) }
    {
        let at = self.next;
        if at >= self.to {
            return Ok(None);
        }
        self.ahead
            .keep_up_to(space.source.layout.end.saturating_sub(at));
        match self
            .ahead
            .read_one(self.alloc, &space.source, outside, at, STRETCH, self.to)
        {
            Ok((rec, length)) => {
                self.ahead.pass(length as usize);
                self.next += length;
                Ok(Some((at, rec)))
            }
            Err(fault) => Err(fault),
        }
    }
}

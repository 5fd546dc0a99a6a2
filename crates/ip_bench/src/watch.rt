// A ground in memory whose calls are counted, and that may give other bytes than stand there.
ghost use Rattle.std.specs.Prelude.{false};
ghost use Rattle.ip_ground.specs.Told.{silent};

use ip_base::Reaped;
use ip_bench_text::Change;
use ip_ground::{Bench, FileName, Ground, GroundCounts, GroundFault};
use std::alloc::{AllocError, Global};

/// A ground in memory, with the number of its calls so far, the files that were read, and what reads give otherwise.
#[derive(Drop)]
pub struct Watch {
    bench: Bench,
    /// How many calls there were; it stands still at its last value.
    pub calls: u64,
    /// How many there were before files were lent last.
    pub lent: u64,
    /// The file of each read.
    pub asked: Vec<FileName>,
    /// Bytes that reads give otherwise than they stand there.
    pub changes: Vec<Change>,
}

impl Watch {
    /// Nothing was called of it yet.
    pub fn new(alloc: Global, bench: Bench) -> Watch {
        Watch {
            bench,
            calls: 0,
            lent: 0,
            asked: Vec::new(alloc),
            changes: Vec::new(alloc),
        }
    }

    /// The ground opened again behind a stop: with the files as they were, or as they were synced last.
    pub fn after_stop(self, keep: bool) -> Result<Watch, AllocError> {
        Ok(Watch {
            bench: self.bench.after_stop(keep)?,
            calls: self.calls,
            lent: self.lent,
            asked: self.asked,
            changes: self.changes,
        })
    }

    /// What was said since it was made or opened again.
    pub fn said(&self, alloc: Global) -> Result<Vec<u8>, AllocError> {
        self.bench.said(alloc)
    }

    // Puts the bytes that others have changed into what was read from a place on.
    fn put_changes(&self, file: FileName, at: u64, out: &mut [u8]) {
        let reads = self.asked.iter().filter(|asked| **asked == file).count() as u64;
        for change in &self.changes {
            if change.file == file && change.at >= at && change.behind < reads {
                if let Some(byte) = out.get_mut((change.at - at) as usize) {
                    *byte = change.byte;
                }
            }
        }
    }
}

impl Ground for Watch {
    ghost tells = { false };

    ghost told = { λ _. silent };

    ghost counts_of = { λ watch. ⟦<Bench as Ground>⟧.counts_of watch.bench };

    ghost refuses = { λ watch. ⟦<Bench as Ground>⟧.refuses watch.bench };

    ghost possible = { λ _ _ file. tt };

    fn attach(&mut self, dir: &str) -> Result<(), GroundFault> {
        self.calls = self.calls.saturating_add(1);
        self.bench.attach(dir)
    }

    fn length(&mut self, file: FileName) -> Result<Option<u64>, GroundFault> {
        self.calls = self.calls.saturating_add(1);
        self.bench.length(file)
    }

    fn read(&mut self, file: FileName, at: u64, out: &mut [u8]) -> Result<usize, GroundFault> {
        self.calls = self.calls.saturating_add(1);
        // Want of memory would only make a count smaller than a text has it.
        let _ = self.asked.push(file);
        let read = self.bench.read(file, at, out);
        if !self.changes.is_empty() {
            self.put_changes(file, at, out);
        }
        read
    }

    fn write(&mut self, file: FileName, at: u64, bytes: &[u8]) -> Result<(), GroundFault> {
        self.calls = self.calls.saturating_add(1);
        self.bench.write(file, at, bytes)
    }

    fn sync(&mut self, file: FileName) -> Result<(), GroundFault> {
        self.calls = self.calls.saturating_add(1);
        self.bench.sync(file)
    }

    fn remove(&mut self, file: FileName) -> Result<(), GroundFault> {
        self.calls = self.calls.saturating_add(1);
        self.bench.remove(file)
    }

    fn lend(&mut self, attempt: u64) -> Result<(), GroundFault> {
        self.lent = self.calls;
        self.calls = self.calls.saturating_add(1);
        self.bench.lend(attempt)
    }

    fn settle(&mut self, attempt: u64, reaped: &Reaped) -> Result<(), GroundFault> {
        self.calls = self.calls.saturating_add(1);
        self.bench.settle(attempt, reaped)
    }

    fn say(&mut self, bytes: &[u8]) -> Result<(), GroundFault> {
        self.calls = self.calls.saturating_add(1);
        self.bench.say(bytes)
    }

    fn note_damage(&mut self) {
        self.bench.note_damage();
    }

    fn counts(&self) -> GroundCounts {
        self.bench.counts()
    }
}

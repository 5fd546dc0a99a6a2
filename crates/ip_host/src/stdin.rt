// Standard input.
ghost use Rattle.std.specs.Prelude.{◌≡◌, ◌≤◌, IfOk, length};

use crate::causes::{Cause, Subject};
use ip_script::{Source, SourceCounts, SourceFault};
use std::io;
use std::io::{ErrorKind, Read};

/// A reader as a source, as standard input: it tells nothing of its bytes. A call gives what one read of the system
/// gives, so a line that a person or another program has written is answered before the next one is there; it waits
/// for no full buffer. A fault is a read that failed, other than by a signal that came between.
#[derive(Drop)]
pub struct Stdin<R: Read + Drop> {
    reader: R,
    faults: u64,
    // of the first fault
    cause: Option<Cause>,
}

impl<R: Read + Drop> Stdin<R> {
    /// The bytes that this reader has left.
    pub fn new(reader: R) -> Stdin<R>
        ensures { ⟦<Stdin<R> as Source>⟧.read_faults result ≡ 0 }
    {
        Stdin {
            reader,
            faults: 0,
            cause: None,
        }
    }

    /// The first fault that was counted.
    pub fn cause(&self) -> Option<Cause> {
        self.cause
    }

    // Keeps the first cause.
    fn keep(&mut self, error: &io::Error)
        ensures { self.new.faults ≡ self.old.faults }
    {
        if self.cause.is_none() {
            self.cause = Some(Cause::of("read", Subject::Input, error));
        }
    }
}

impl<R: Read + Drop> Source for Stdin<R> {
    ghost use Rattle.std.specs.Prelude.{false, []};

    ghost tells = { false };

    ghost left = { λ _. [] };

    ghost read_faults = { λ s. s.faults };

    fn next(&mut self, out: &mut [u8]) -> Result<usize, SourceFault> {
        match read_once(&mut self.reader, out) {
            Ok(n) => Ok(n),
            Err(error) => {
                self.keep(&error);
                self.faults = self.faults.saturating_add(1);
                Err(SourceFault)
            }
        }
    }

    fn counts(&self) -> SourceCounts {
        SourceCounts {
            read_faults: self.faults,
        }
    }
}

// Reads again where a signal came between.
fn read_once<R: Read>(reader: &mut R, out: &mut [u8]) -> io::Result<usize>
    ensures { IfOk result (λ n. n ≤ length out.old) }
{
    for _ in 0..u64::MAX {
        match reader.read(out) {
            Err(e) if e.kind() == ErrorKind::Interrupted => {}
            ended => return ended,
        }
    }
    Err(io::Error::from(ErrorKind::Interrupted))
}

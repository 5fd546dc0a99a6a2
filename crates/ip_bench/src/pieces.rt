// A source that gives few bytes at a time.
ghost use Rattle.std.specs.Prelude.{[], false};

use ip_script::{Bytes, Source, SourceCounts, SourceFault};

/// The bytes of a script, of which so many are given at a time at most, one at least.
#[derive(Drop)]
pub struct Pieces {
    pub bytes: Bytes,
    pub most: u64,
}

impl Source for Pieces {
    ghost tells = { false };

    ghost left = { λ _. [] };

    ghost read_faults = { λ s. ⟦<Bytes as Source>⟧.read_faults s.bytes };

    fn next(&mut self, out: &mut [u8]) -> Result<usize, SourceFault> {
        let count = out.len().min(self.most.max(1) as usize);
        self.bytes.next(&mut out[..count])
    }

    fn counts(&self) -> SourceCounts {
        self.bytes.counts()
    }
}

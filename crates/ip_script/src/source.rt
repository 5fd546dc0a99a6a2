// Where a script's bytes come from.
ghost use Rattle.std.specs.Prelude.{◌≡◌, ◌<◌, ◌≤◌, ◌++◌, [], List, ℕ, Bool, length, take, IsTrue, IfOk, OnOk, OnErr, Ok};
ghost use Rattle.ip_ground.specs.Counts.{Rose};

use ip_base::Blob;

/// A call of a source failed, and its count rose.
#[derive(Clone, Copy, Debug, PartialEq, Eq)]
pub struct SourceFault;

/// How often a source has failed. A counter that stands at its last value stays there.
#[derive(Clone, Copy, Debug, PartialEq, Eq)]
pub struct SourceCounts {
    pub read_faults: u64,
}

/// Bytes that are handed out once, from front to end.
pub trait Source {
    /// Whether it tells what is left. Objects in memory do, standard input does not.
    ghost tells: { Bool };

    /// The bytes that are left.
    ghost left: { Self → List ℕ };

    /// How many calls have failed so far.
    ghost read_faults: { Self → ℕ };

    /// The next bytes, at least one and as many as it likes of those that there is room for. None, where there is room, is
    /// the end. A call that fails hands out nothing.
    fn next(&mut self, out: &mut [u8]) -> Result<usize, SourceFault>
        ensures room { IfOk result (λ n. n ≤ length out.old) }
        ensures bytes { IsTrue tells → IfOk result (λ n. left self.old ≡ take n out.new ++ left self.new) }
        ensures ended { IsTrue tells → 0 < length out.old → result ≡ Ok 0 → left self.old ≡ [] }
        ensures failed { IsTrue tells → OnErr result (left self.new ≡ left self.old) }
        ensures still { OnOk result (read_faults self.new ≡ read_faults self.old) }
        ensures counts { read_faults self.old ≤ read_faults self.new }
        ensures cause { OnErr result (Rose (read_faults self.old) (read_faults self.new)) };

    /// How many calls have failed so far.
    fn counts(&self) -> SourceCounts
        ensures { result.read_faults ≡ read_faults self.now };
}

/// A source in memory, which tells what is left. The calls whose numbers are listed fail; the first call has number 0.
#[derive(Drop)]
pub struct Bytes {
    bytes: Blob,
    at: usize,
    fails: Vec<u64>,
    calls: u64,
    faults: u64,
    ghost in_range: { at ≤ length bytes },
}

impl Bytes {
    pub fn new(bytes: Blob, fails: Vec<u64>) -> Self
        ensures left { ⟦<Bytes as Source>⟧.left result ≡ bytes }
        ensures faults { ⟦<Bytes as Source>⟧.read_faults result ≡ 0 }
    {
        Bytes {
            bytes,
            at: 0,
            fails,
            calls: 0,
            faults: 0,
        }
    }
}

impl Source for Bytes {
    ghost use Rattle.std.specs.Prelude.{true, drop};

    ghost tells = { true };

    ghost left = { λ s. drop s.at s.bytes };

    ghost read_faults = { λ s. s.faults };

    fn next(&mut self, out: &mut [u8]) -> Result<usize, SourceFault> {
        let call = self.calls;
        self.calls = self.calls.saturating_add(1);
        if self.fails.contains(&call) {
            self.faults = self.faults.saturating_add(1);
            return Err(SourceFault);
        }
        let rest = &self.bytes.as_slice()[self.at..];
        let n = rest.len().min(out.len());
        out[..n].copy_from_slice(&rest[..n]);
        self.at += n;
        Ok(n)
    }

    fn counts(&self) -> SourceCounts {
        SourceCounts {
            read_faults: self.faults,
        }
    }
}

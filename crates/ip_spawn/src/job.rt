// What a child is told of the collection that it is for.
ghost use Rattle.std.specs.Prelude.{◌≡◌, ◌↔◌, IsTrue, IfSome, IfNone, ℕ};
ghost use Rattle.ip_spawn.specs.Sizes.{IsChunkSize};
ghost use Rattle.ip_spawn.specs.Spelling.{Spells};

use ip_base::limit::{CHUNK_MAX, CHUNK_MIN, OFFSET_MAX};

/// Whether a store may have chunks of so many bytes: a power of two from `CHUNK_MIN` to `CHUNK_MAX`.
pub fn chunk_allowed(chunk: u64) -> bool
    ensures { IsTrue result ↔ IsChunkSize chunk }
{
    if chunk < CHUNK_MIN || chunk > CHUNK_MAX {
        return false;
    }
    chunk.is_power_of_two()
}

/// What a collector reads, and where it writes.
#[derive(Clone, Copy, Debug, PartialEq, Eq)]
pub struct Job {
    /// The attempt whose files it writes.
    pub attempt: u64,
    /// Where the record of the commit stands at which is collected: what lies below is copied where it is needed.
    pub horizon: u64,
    /// Where the records end.
    pub end: u64,
    /// The bytes of a chunk.
    pub chunk: u64,
    /// The attempt whose pair is served, 0 where none is.
    pub live: u64,
    /// Below it records are read from the pair that is served.
    pub old_horizon: u64,
    /// The bytes of that pair's prefix.
    pub prefix_len: u64,
    /// The rows of that pair's mapping.
    pub rows: u64,
}

impl Job {
    ghost use Rattle.ip_spawn.specs.Jobs.{IsValid, numbers_of};

    /// The number that a word spells: decimal digits of a number below 2^64, without a zero in front of others.
    pub fn number(word: &str) -> Option<u64>
        ensures some { IfSome result (λ n. Spells word.now n) }
        ensures none { IfNone result ((n : ℕ) → ¬ Spells word.now n) }
    {
        match word.as_bytes() {
            [b'0'] => Some(0),
            [b'1'..=b'9', ..] => word.parse().ok(),
            _ => None,
        }
    }

    /// Whether a collector may be given it.
    pub fn valid(&self) -> bool
        ensures { IsTrue result ↔ IsValid self.now }
    {
        chunk_allowed(self.chunk)
            && self.attempt >= 1
            && self.live < self.attempt
            && self.old_horizon <= self.horizon
            && self.horizon < self.end
            && self.end <= OFFSET_MAX
            && (self.live == 0) == (self.old_horizon == 0)
    }

    /// Its numbers, in the order in which a child is given them.
    pub fn numbers(&self) -> [u64; 8]
        ensures { result ≡ numbers_of self.now }
    {
        [
            self.attempt,
            self.horizon,
            self.end,
            self.chunk,
            self.live,
            self.old_horizon,
            self.prefix_len,
            self.rows,
        ]
    }

    /// The job with these numbers.
    pub fn of(numbers: [u64; 8]) -> Job
        ensures { numbers_of result ≡ numbers }
    {
        let [
            attempt,
            horizon,
            end,
            chunk,
            live,
            old_horizon,
            prefix_len,
            rows,
        ] = numbers;
        Job {
            attempt,
            horizon,
            end,
            chunk,
            live,
            old_horizon,
            prefix_len,
            rows,
        }
    }
}

//! The front of a mapping's file.
ghost use Rattle.std.specs.Prelude.{◌≡◌, ◌++◌, MatchOption};
ghost use Rattle.ip_mapping.specs.Parsing.{head_bytes, Begins};

use crate::reader::take_number;

/// The numbers in front of a mapping's rows.
#[derive(Clone, Copy, Debug, PartialEq, Eq)]
pub struct Head {
    pub horizon: u64,
    pub end: u64,
    /// How many rows are told to follow.
    pub rows: u64,
}

impl Head {
    /// The numbers that bytes begin with. By them the live slot's numbers are tested before any row is.
    pub fn of(bytes: &[u8]) -> Option<Head>
        ensures { MatchOption result ((head : _) → ¬ (Begins bytes.now head)) (Begins bytes.now) }
    {
        let (head, _) = take_head(bytes)?;
        Some(head)
    }
}

// The numbers that bytes begin with, and the bytes behind them.
pub fn take_head(bytes: &[u8]) -> Option<(Head, &[u8])>
    ensures { MatchOption result ((head : _) → ¬ (Begins bytes.now head)) (λ r. bytes.now ≡ head_bytes r.0 ++ r.1.now) }
{
    let behind_magic = bytes.strip_prefix(b"IPMAP001")?;
    let (horizon, behind_horizon) = take_number(behind_magic)?;
    let (end, behind_end) = take_number(behind_horizon)?;
    let (rows, rest) = take_number(behind_end)?;
    Some((Head { horizon, end, rows }, rest))
}

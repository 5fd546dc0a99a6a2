//! A mapping in memory.
ghost use Rattle.std.specs.Prelude.{◌≡◌, ◌*◌, ◌↔◌, ◌++◌, [], length, map, IsTrue, IfOk, MatchOption};
ghost use Rattle.ip_image.specs.Virtual.{run_of, placed, total, locate, RowFits, RowsFit};
ghost use Rattle.ip_mapping.specs.Parsing.{Parses, head_bytes, IsRowAt};

use crate::head::take_head;
use crate::reader::take_row;
use crate::{Head, MappingFault};
use ip_base::Memory;
use ip_image::run::{Row, Run};
use std::alloc::Global;
use std::marker::Model;

/// Where each run of kept offsets lies in a prefix file.
#[derive(Debug, Drop)]
pub struct Mapping {
    horizon: u64,
    end: u64,
    rows: Vec<Row>,
}

impl Model for Mapping {
    ghost use Rattle.ip_image.specs.Virtual.{RowsFit};
    ghost use Rattle.ip_mapping.specs.Parsing.{Fields};

    ghost Value = { Fields };

    ghost view = { λ m. record { horizon = m.horizon; end = m.end; rows = m.rows.items } };

    ghost invariant = { λ m. RowsFit m.horizon m.rows.items };
}

impl Mapping {
    /// Reads the bytes of a mapping's file. That the horizon, the end and the count of rows are those of the
    /// live slot is not tested here.
    pub fn parse(alloc: Global, bytes: &[u8]) -> Result<Mapping, MappingFault>
        ensures { Parses bytes.now result }
    {
        match take_head(bytes) {
            Some((head, rest)) if holds_rows(rest, head.rows) => read_rows(alloc, &head, rest),
            _ => Err(MappingFault::Form(0)),
        }
    }

    /// The mapping without runs. It takes no memory.
    pub fn none(alloc: Global, horizon: u64, end: u64) -> Mapping
        ensures { result ≡ record { horizon = horizon; end = end; rows = [] } }
    {
        Mapping {
            horizon,
            end,
            rows: Vec::new(alloc),
        }
    }

    /// The mapping with these runs, in which the prefix has them one behind another. Numbers are in bytes of
    /// the virtual space.
    pub fn of_runs(alloc: Global, horizon: u64, end: u64, runs: &[Run]) -> Result<Mapping, Memory>
        requires { RowsFit horizon (placed 0 runs.now) }
        ensures { IfOk result (λ m. m ≡ record { horizon = horizon; end = end; rows = placed 0 runs.now }) }
    {
        let mut rows = Vec::with_capacity(alloc, runs.len())?;
        let mut place = 0;
        for run in runs {
            rows.push(Row {
                at: run.at,
                length: run.length,
                place,
            })?;
            place += run.length;
        }
        Ok(Mapping { horizon, end, rows })
    }

    /// The same mapping once more.
    pub fn copy(&self, alloc: Global) -> Result<Mapping, Memory>
        ensures { IfOk result (λ m. m ≡ self.now) }
    {
        Ok(Mapping {
            horizon: self.horizon,
            end: self.end,
            rows: self.rows.to_vec(alloc)?,
        })
    }

    /// The offset from which on nothing is mapped, in bytes of the virtual space.
    pub fn horizon(&self) -> u64
        ensures { result ≡ self.now.horizon }
    {
        self.horizon
    }

    /// The end that the virtual space had when the mapping was made, in bytes.
    pub fn end(&self) -> u64
        ensures { result ≡ self.now.end }
    {
        self.end
    }

    /// The runs with their places, ascending.
    pub fn rows(&self) -> &[Row]
        ensures rows { result.now ≡ self.now.rows }
        ensures in_order { RowsFit self.now.horizon self.now.rows }
    {
        &self.rows
    }

    /// Whether the runs have so many bytes together: as many as the prefix file.
    pub fn fills(&self, length: u64) -> bool
        ensures { IsTrue result ↔ (total (map run_of self.now.rows) ≡ length) }
    {
        match self.rows.last() {
            Some(row) => row.place <= length && length - row.place == row.length,
            None => length == 0,
        }
    }

    /// The row whose run has an offset; none where no run has it. A reader takes as many bytes at its place as
    /// the run has from the offset on: behind them in the prefix file stands another run.
    pub fn row_at(&self, at: u64) -> Option<Row>
        ensures { MatchOption result (locate (map run_of self.now.rows) at ≡ None) (IsRowAt self.now at) }
    {
        let behind = self.rows.partition_point(|row| row.at <= at);
        if behind == 0 {
            return None;
        }
        let row = self.rows[behind - 1];
        if at - row.at < row.length {
            Some(row)
        } else {
            None
        }
    }

    /// The place in the prefix file of the byte at an offset; none where no run has the offset.
    pub fn locate(&self, at: u64) -> Option<u64>
        ensures { result ≡ locate (map run_of self.now.rows) at }
    {
        let row = self.row_at(at)?;
        Some(row.place + (at - row.at))
    }
}

// Whether bytes have the length of this many rows.
fn holds_rows(bytes: &[u8], rows: u64) -> bool
    ensures { IsTrue result ↔ (length bytes.now ≡ 24 * rows) }
{
    bytes.len() % 24 == 0 && (bytes.len() / 24) as u64 == rows
}

// Whether a row may stand behind those that end below `from` and fill the prefix up to `place`.
fn fits(horizon: u64, from: u64, place: u64, row: &Row) -> bool
    ensures { IsTrue result ↔ RowFits horizon from place row.now }
{
    from <= row.at
        && row.length > 0
        && row.length <= horizon
        && row.at <= horizon - row.length
        && row.place == place
}

// The mapping with this head and these bytes of rows.
fn read_rows(alloc: Global, head: &Head, bytes: &[u8]) -> Result<Mapping, MappingFault>
    requires { length bytes.now ≡ 24 * head.now.rows }
    ensures { Parses (head_bytes head.now ++ bytes.now) result }
{
    let Ok(mut rows) = Vec::with_capacity(alloc, bytes.len() / 24) else {
        return Err(MappingFault::Memory);
    };
    let mut left = bytes;
    let mut from = 0;
    let mut place = 0;
    while let Some((row, rest)) = take_row(left) {
        if !fits(head.horizon, from, place, &row) {
            return Err(MappingFault::Form(32 + 24 * rows.len() as u64));
        }
        // Where a run ends at the greatest offset, no row fits behind it, and the start may stand still.
        from = (row.at + row.length).saturating_add(1);
        place += row.length;
        left = rest;
        if rows.push(row).is_err() {
            return Err(MappingFault::Memory);
        }
    }
    Ok(Mapping {
        horizon: head.horizon,
        end: head.end,
        rows,
    })
}

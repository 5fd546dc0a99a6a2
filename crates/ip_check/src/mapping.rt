// The mapping's file beside the runs that it is to have.
ghost use Rattle.std.specs.Prelude.{◌≡◌, ◌+◌, ◌*◌, ◌≤◌, ◌++◌, [], length, IsTrue, IfOk, IfSome, OnOk};
ghost use Rattle.ip_base.specs.declared.limit.TheConstants.{OFFSET_MAX};
ghost use Rattle.ip_ground.specs.declared.names.FileName.TheVariants.{Mapping};
ghost use Rattle.ip_ground.specs.Counts.{Counts};
ghost use Rattle.ip_ground.specs.Told.{NoFile, ChangesOnly, IsForeign};
ghost use Rattle.ip_spec.specs.declared.reply.Produced.TheVariants as Produced;
ghost use Rattle.ip_spec.specs.Path.{Bytes};
ghost use Rattle.ip_image.specs.Virtual.{mapping_bytes, row_bytes, total};
ghost use Rattle.ip_mapping.specs.Parsing.{head_bytes};
ghost use Rattle.ip_keep.specs.Runs.{FitRuns, joined, left_of};
ghost use Rattle.ip_check.specs.Faults.{counted_check, IsUndamaged};
ghost use Rattle.ip_check.specs.Alike.{SaysEnd};
ghost use Rattle.ip_check.specs.Pieces.{AreMade, Compares, FitsIn, made_to, rows_from};

use crate::CheckFault;
use crate::compare::{compare, compare_end};
use ip_base::Memory;
use ip_ground::{FileName, Ground};
use ip_keep::Runs;
use ip_mapping::{Head, Row, put_head, put_row};
use ip_spawn::Job;
use ip_spec::reply::{Difference, Produced};
use std::alloc::Global;

// How many bytes are made before they are compared.
const PIECE: usize = 128 * 1024;

// So many runs have no room in memory.
const TOO_MANY: u64 = 1 << 57;

// The front of a mapping's file was compared, up to a place; what stands behind it is made, and not compared yet.
#[derive(Drop)]
struct Pieces {
    file: FileName,
    place: u64,
    bytes: Vec<u8>,
    room: Vec<u8>,
}

/// The first difference of the mapping's file of a job's attempt, or none. Its bytes are made and compared piece by piece.
pub fn compare_mapping<G: Ground>(
    alloc: Global,
    outside: &mut G,
    job: &Job,
    runs: Runs<'_>,
) -> Result<Option<Difference>, CheckFault>
    requires fit { FitRuns (left_of runs) }
    requires few { length (joined (left_of runs)) ≤ OFFSET_MAX }
    requires total { total (left_of runs) ≤ OFFSET_MAX }
    ensures says { IsTrue G.tells → ¬ IsForeign (G.told outside.old) (Mapping job.now.attempt) →
        SaysEnd Produced.Mapping (mapping_bytes job.now.horizon job.now.end (joined (left_of runs.entry))) ((G.told outside.old).held (Mapping job.now.attempt)) result }
    ensures undamaged { IsUndamaged result }
    ensures differs { IfOk result (λ found. IfSome found (λ d. d.file ≡ Produced.Mapping)) }
    ensures only { IsTrue G.tells → ChangesOnly NoFile (G.told outside.old) (G.told outside.new) }
    ensures counts { Counts counted_check result (G.counts_of outside.old) (G.counts_of outside.new) }
{
    let rows = count_runs(runs);
    if rows >= TOO_MANY {
        return Err(CheckFault::Memory);
    }
    let head = Head {
        horizon: job.horizon,
        end: job.end,
        rows,
    };
    let mut pieces = Pieces::new(alloc, FileName::Mapping(job.attempt), &head)?;
    match pieces.put_rows(outside, runs)? {
        Some(found) => Ok(Some(found)),
        None => pieces.end(outside),
    }
}

// How many runs are left.
fn count_runs(runs: Runs<'_>) -> u64
    requires fit { FitRuns (left_of runs) }
    requires few { length (joined (left_of runs)) ≤ OFFSET_MAX }
    ensures { result ≡ length (joined (left_of runs.entry)) }
{
    let mut left = runs;
    let mut count = 0;
    while let Some(_) = left.take_run() {
        count += 1;
    }
    count
}

impl Pieces {
    // The front of the mapping's file, of which nothing was compared.
    fn new(alloc: Global, file: FileName, head: &Head) -> Result<Pieces, Memory>
        ensures file { IfOk result (λ p. p.file ≡ file) }
        ensures fits { IfOk result FitsIn }
        ensures place { IfOk result (λ p. p.place ≡ 0) }
        ensures bytes { IfOk result (λ p. p.bytes.items ≡ head_bytes head.now) }
    {
        let mut bytes = Vec::with_capacity(alloc, PIECE)?;
        put_head(&mut bytes, head)?;
        let room = vec![in alloc; 0; PIECE]?;
        Ok(Pieces {
            file,
            place: 0,
            bytes,
            room,
        })
    }

    // Makes the rows, and compares what was made as often as a piece is full.
    fn put_rows<G: Ground>(
        &mut self,
        outside: &mut G,
        runs: Runs<'_>,
    ) -> Result<Option<Difference>, CheckFault>
        requires fit { FitRuns (left_of runs) }
        requires total { total (joined (left_of runs)) ≤ OFFSET_MAX }
        requires few { made_to self.old + 24 * length (joined (left_of runs)) ≤ OFFSET_MAX }
        requires fits { FitsIn self.old }
        ensures file { self.new.file ≡ self.old.file }
        ensures few { OnOk result (made_to self.new ≤ OFFSET_MAX) }
        ensures fits { OnOk result (FitsIn self.new) }
        ensures says { IsTrue G.tells → ¬ IsForeign (G.told outside.old) self.old.file → (whole : Bytes) →
            AreMade whole ((G.told outside.old).held self.old.file) self.old (rows_from 0 (joined (left_of runs.entry))) → Compares whole ((G.told outside.old).held self.old.file) self.new [] result }
        ensures undamaged { IsUndamaged result }
        ensures differs { IfOk result (λ found. IfSome found (λ d. d.file ≡ Produced.Mapping)) }
        ensures only { IsTrue G.tells → ChangesOnly NoFile (G.told outside.old) (G.told outside.new) }
        ensures counts { Counts counted_check result (G.counts_of outside.old) (G.counts_of outside.new) }
    {
        let mut left = runs;
        let mut place = 0;
        while let Some(run) = left.take_run() {
            let row = Row {
                at: run.at,
                length: run.length,
                place,
            };
            if let Some(found) = self.put(outside, &row)? {
                return Ok(Some(found));
            }
            place += run.length;
        }
        Ok(None)
    }

    // Makes one row, and compares what was made before it where there is no room for it.
    fn put<G: Ground>(
        &mut self,
        outside: &mut G,
        row: &Row,
    ) -> Result<Option<Difference>, CheckFault>
        requires few { made_to self.old + 24 ≤ OFFSET_MAX }
        requires fits { FitsIn self.old }
        ensures file { self.new.file ≡ self.old.file }
        ensures few { OnOk result (made_to self.new ≤ made_to self.old + 24) }
        ensures fits { OnOk result (FitsIn self.new) }
        ensures says { IsTrue G.tells → ¬ IsForeign (G.told outside.old) self.old.file → (whole rest : Bytes) →
            AreMade whole ((G.told outside.old).held self.old.file) self.old (row_bytes row.now ++ rest) → Compares whole ((G.told outside.old).held self.old.file) self.new rest result }
        ensures undamaged { IsUndamaged result }
        ensures differs { IfOk result (λ found. IfSome found (λ d. d.file ≡ Produced.Mapping)) }
        ensures only { IsTrue G.tells → ChangesOnly NoFile (G.told outside.old) (G.told outside.new) }
        ensures counts { Counts counted_check result (G.counts_of outside.old) (G.counts_of outside.new) }
    {
        if self.bytes.len() + 24 <= PIECE {
            put_row(&mut self.bytes, row)?;
            return Ok(None);
        }
        if let Some(found) = self.flush(outside)? {
            return Ok(Some(found));
        }
        put_row(&mut self.bytes, row)?;
        Ok(None)
    }

    // Compares what was made.
    fn flush<G: Ground>(&mut self, outside: &mut G) -> Result<Option<Difference>, CheckFault>
        requires few { made_to self.old ≤ OFFSET_MAX }
        requires fits { FitsIn self.old }
        ensures file { self.new.file ≡ self.old.file }
        ensures few { made_to self.new ≤ made_to self.old }
        ensures fits { FitsIn self.new }
        ensures empty { OnOk result (self.new.bytes.items ≡ []) }
        ensures says { IsTrue G.tells → ¬ IsForeign (G.told outside.old) self.old.file → (whole rest : Bytes) →
            AreMade whole ((G.told outside.old).held self.old.file) self.old rest → Compares whole ((G.told outside.old).held self.old.file) self.new rest result }
        ensures undamaged { IsUndamaged result }
        ensures differs { IfOk result (λ found. IfSome found (λ d. d.file ≡ Produced.Mapping)) }
        ensures only { IsTrue G.tells → ChangesOnly NoFile (G.told outside.old) (G.told outside.new) }
        ensures counts { Counts counted_check result (G.counts_of outside.old) (G.counts_of outside.new) }
    {
        let found = compare(
            outside,
            self.file,
            Produced::Mapping,
            self.place,
            &self.bytes,
            &mut self.room,
        )?;
        self.place += self.bytes.len() as u64;
        self.bytes.clear();
        Ok(found)
    }

    // Compares what is left, and that the file ends there.
    fn end<G: Ground>(&mut self, outside: &mut G) -> Result<Option<Difference>, CheckFault>
        requires few { made_to self.old ≤ OFFSET_MAX }
        requires fits { FitsIn self.old }
        ensures says { IsTrue G.tells → ¬ IsForeign (G.told outside.old) self.old.file → (whole : Bytes) →
            AreMade whole ((G.told outside.old).held self.old.file) self.old [] → SaysEnd Produced.Mapping whole ((G.told outside.old).held self.old.file) result }
        ensures undamaged { IsUndamaged result }
        ensures differs { IfOk result (λ found. IfSome found (λ d. d.file ≡ Produced.Mapping)) }
        ensures only { IsTrue G.tells → ChangesOnly NoFile (G.told outside.old) (G.told outside.new) }
        ensures counts { Counts counted_check result (G.counts_of outside.old) (G.counts_of outside.new) }
    {
        if let Some(found) = self.flush(outside)? {
            return Ok(Some(found));
        }
        Ok(compare_end(outside, self.file, Produced::Mapping, self.place)?)
    }
}

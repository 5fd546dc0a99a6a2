// The pair of an attempt: the prefix, and the mapping that says where in it an offset lies.
ghost use Rattle.std.specs.Prelude.{◌≡◌, [], ◌+◌, ◌<◌, ◌≤◌, length, IsTrue, IfOk, OnOk, IsErrOf, Some, None};
ghost use Rattle.ip_base.specs.declared.limit.TheConstants.{OFFSET_MAX};
ghost use Rattle.ip_ground.specs.declared.names.FileName.TheVariants.{Prefix, Mapping};
ghost use Rattle.ip_ground.specs.Counts.{Counts as CountsBy};
ghost use Rattle.ip_ground.specs.Told.{Only, ChangesOnly};
ghost use Rattle.ip_spec.specs.Path.{Bytes};
ghost use Rattle.ip_spawn.specs.Jobs.{IsValid as IsValidJob};
ghost use Rattle.ip_image.specs.Virtual.{RowsFit, placed, total, mapping_bytes};
ghost use Rattle.ip_space.specs.SpaceView.{AreBelow, byte_at};
ghost use Rattle.ip_keep.specs.Runs.{joined};
ghost use Rattle.ip_worker.specs.Faults.{counted_work};
ghost use Rattle.ip_worker.specs.declared.fault.WorkFault.TheVariants as WorkFault;
ghost use Rattle.ip_worker.specs.declared.pair.TheConstants.{PIECE};
ghost use Rattle.ip_worker.specs.Steps.{IsFor, IsFree, IsPairFile, IsReady, Copies, CopiesRuns, IsCounted, WritesPair};

use crate::attempt::sync_pair;
use crate::search::list_runs;
use crate::{Counts, WorkFault};
use ip_base::Memory;
use ip_ground::{FileName, Ground};
use ip_keep::{Keep, Run};
use ip_space::Space;
use ip_spawn::Job;
use std::alloc::Global;

/// The most bytes that are copied at once.
const PIECE: u64 = 1 << 20;

// Writes the pair of what was found, and syncs it.
pub fn write_pair<G: Ground>(
    alloc: Global,
    job: &Job,
    outside: &mut G,
    keep: &Keep,
) -> Result<Counts, WorkFault>
    requires job { IsValidJob job.now }
    requires keep { IsFor job.now keep.now }
    ensures counted { IfOk result (λ counted. IsCounted keep.now.kept counted) }
    ensures writes { IsTrue G.tells → IsReady job.now.attempt keep.now.space (G.told outside.old) →
        (G.told outside.old).held (Prefix job.now.attempt) ≡ None → (G.told outside.old).held (Mapping job.now.attempt) ≡ None →
        WritesPair (byte_at (G.told outside.old) keep.now.space) job.now (joined keep.now.kept) result (G.told outside.new) }
    ensures only { IsTrue G.tells → IsFree (G.told outside.old) job.now.attempt → ChangesOnly (IsPairFile job.now.attempt) (G.told outside.old) (G.told outside.new) }
    ensures counts { CountsBy counted_work result (G.counts_of outside.old) (G.counts_of outside.new) }
{
    let runs = list_runs(alloc, keep)?;
    let bytes = match write_files(alloc, job, outside, keep.space(), &runs) {
        Ok(bytes) => bytes,
        Err(fault) => return Err(fault),
    };
    Ok(Counts {
        records: keep.kept().len() as u64,
        bytes,
        runs: runs.len() as u64,
    })
}

// Writes both files over runs, and syncs them. It says how many bytes the prefix has.
fn write_files<G: Ground>(
    alloc: Global,
    job: &Job,
    outside: &mut G,
    space: &Space,
    runs: &[Run],
) -> Result<u64, WorkFault>
    requires ends { space.now.layout.end ≤ OFFSET_MAX }
    requires inside { AreBelow space.now.layout.end runs.now }
    requires room { total runs.now ≤ OFFSET_MAX }
    requires rows { RowsFit job.now.horizon (placed 0 runs.now) }
    ensures total { IfOk result (λ n. n ≡ total runs.now) }
    ensures writes { IsTrue G.tells → IsReady job.now.attempt space.now (G.told outside.old) →
        (G.told outside.old).held (Prefix job.now.attempt) ≡ None → (G.told outside.old).held (Mapping job.now.attempt) ≡ None →
        WritesPair (byte_at (G.told outside.old) space.now) job.now runs.now result (G.told outside.new) }
    ensures only { IsTrue G.tells → IsFree (G.told outside.old) job.now.attempt → ChangesOnly (IsPairFile job.now.attempt) (G.told outside.old) (G.told outside.new) }
    ensures counts { CountsBy counted_work result (G.counts_of outside.old) (G.counts_of outside.new) }
{
    let bytes = match write_prefix(alloc, job.attempt, outside, space, runs) {
        Ok(bytes) => bytes,
        Err(fault) => return Err(fault),
    };
    match write_mapping(alloc, job, outside, runs) {
        Ok(()) => {}
        Err(fault) => return Err(fault),
    }
    match sync_pair(outside, job.attempt) {
        Ok(()) => Ok(bytes),
        Err(_) => Err(WorkFault::Ground),
    }
}

// Writes where the runs lie in the prefix.
fn write_mapping<G: Ground>(
    alloc: Global,
    job: &Job,
    outside: &mut G,
    runs: &[Run],
) -> Result<(), WorkFault>
    requires { RowsFit job.now.horizon (placed 0 runs.now) }
    ensures ok { IsTrue G.tells → IsFree (G.told outside.old) job.now.attempt → (G.told outside.old).held (Mapping job.now.attempt) ≡ None →
        OnOk result ((G.told outside.new).held (Mapping job.now.attempt) ≡ Some (mapping_bytes job.now.horizon job.now.end runs.now)) }
    ensures whole { IsErrOf result WorkFault.Damaged → ⊥ }
    ensures only { IsTrue G.tells → ChangesOnly (Only (Mapping job.now.attempt)) (G.told outside.old) (G.told outside.new) }
    ensures counts { CountsBy counted_work result (G.counts_of outside.old) (G.counts_of outside.new) }
{
    let mapping = ip_mapping::build(alloc, job.horizon, job.end, runs)?;
    outside.write(FileName::Mapping(job.attempt), 0, mapping.as_slice())?;
    Ok(())
}

// Writes the runs one behind another, and says how many bytes they have. Where there are none the file is empty.
fn write_prefix<G: Ground>(
    alloc: Global,
    attempt: u64,
    outside: &mut G,
    space: &Space,
    runs: &[Run],
) -> Result<u64, WorkFault>
    requires ends { space.now.layout.end ≤ OFFSET_MAX }
    requires inside { AreBelow space.now.layout.end runs.now }
    requires room { total runs.now ≤ OFFSET_MAX }
    ensures total { IfOk result (λ n. n ≡ total runs.now) }
    ensures copies { IsTrue G.tells → IsReady attempt space.now (G.told outside.old) → (G.told outside.old).held (Prefix attempt) ≡ None →
        CopiesRuns (byte_at (G.told outside.old) space.now) attempt runs.now result (G.told outside.new) }
    ensures only { IsTrue G.tells → ChangesOnly (Only (Prefix attempt)) (G.told outside.old) (G.told outside.new) }
    ensures counts { CountsBy counted_work result (G.counts_of outside.old) (G.counts_of outside.new) }
{
    let mut buffer = zeros(alloc, room_for(total_of(runs)))?;
    outside.write(FileName::Prefix(attempt), 0, &[])?;
    copy_runs(attempt, outside, space, runs, buffer.as_mut_slice())
}

// The bytes of the runs together.
fn total_of(runs: &[Run]) -> u64
    requires { total runs.now ≤ OFFSET_MAX }
    ensures { result ≡ total runs.now }
{
    let mut sum = 0;
    for run in runs {
        sum += run.length;
    }
    sum
}

// How many of so many bytes are copied at once: one at least, so that a copy gets on, and no more than a piece.
fn room_for(bytes: u64) -> usize
    ensures { (0 < result) × (result ≤ PIECE) }
{
    if bytes == 0 {
        return 1;
    }
    bytes.min(PIECE) as usize
}

// A buffer of so many bytes.
fn zeros(alloc: Global, size: usize) -> Result<Vec<u8>, Memory>
    requires { size ≤ PIECE }
    ensures { IfOk result (λ buffer. length buffer.items ≡ size) }
{
    Ok(vec![in alloc; 0; size]?)
}

// Copies the runs to the front of the prefix.
fn copy_runs<G: Ground>(
    attempt: u64,
    outside: &mut G,
    space: &Space,
    runs: &[Run],
    buffer: &mut [u8],
) -> Result<u64, WorkFault>
    requires ends { space.now.layout.end ≤ OFFSET_MAX }
    requires inside { AreBelow space.now.layout.end runs.now }
    requires room { total runs.now ≤ OFFSET_MAX }
    requires buffer { 0 < length buffer.old }
    ensures total { IfOk result (λ n. n ≡ total runs.now) }
    ensures copies { IsTrue G.tells → IsReady attempt space.now (G.told outside.old) → (G.told outside.old).held (Prefix attempt) ≡ Some [] →
        CopiesRuns (byte_at (G.told outside.old) space.now) attempt runs.now result (G.told outside.new) }
    ensures only { IsTrue G.tells → ChangesOnly (Only (Prefix attempt)) (G.told outside.old) (G.told outside.new) }
    ensures counts { CountsBy counted_work result (G.counts_of outside.old) (G.counts_of outside.new) }
{
    let mut place = 0;
    for run in runs {
        match copy_run(attempt, outside, space, run, place, buffer) {
            Ok(()) => {}
            Err(fault) => return Err(fault),
        }
        place += run.length;
    }
    Ok(place)
}

// Copies a run to a place of the prefix, as much at once as the buffer takes.
fn copy_run<G: Ground>(
    attempt: u64,
    outside: &mut G,
    space: &Space,
    run: &Run,
    place: u64,
    buffer: &mut [u8],
) -> Result<(), WorkFault>
    requires ends { space.now.layout.end ≤ OFFSET_MAX }
    requires inside { run.now.at + run.now.length ≤ space.now.layout.end }
    requires room { place + run.now.length ≤ OFFSET_MAX }
    requires buffer { 0 < length buffer.old }
    ensures copies { IsTrue G.tells → IsReady attempt space.now (G.told outside.old) → (before : Bytes) → (G.told outside.old).held (Prefix attempt) ≡ Some before →
        length before ≡ place → Copies (byte_at (G.told outside.old) space.now) attempt run.now.at run.now.length before result (G.told outside.new) }
    ensures only { IsTrue G.tells → ChangesOnly (Only (Prefix attempt)) (G.told outside.old) (G.told outside.new) }
    ensures counts { CountsBy counted_work result (G.counts_of outside.old) (G.counts_of outside.new) }
{
    let mut done = 0;
    while done < run.length {
        let count = (run.length - done).min(buffer.len() as u64) as usize;
        let piece = &mut buffer[..count];
        match copy_piece(attempt, outside, space, run.at + done, place + done, piece) {
            Ok(()) => {}
            Err(fault) => return Err(fault),
        }
        done += count as u64;
    }
    Ok(())
}

// Copies as many bytes as the piece takes. Where one is missing damage is noted.
fn copy_piece<G: Ground>(
    attempt: u64,
    outside: &mut G,
    space: &Space,
    at: u64,
    place: u64,
    piece: &mut [u8],
) -> Result<(), WorkFault>
    requires inside { at + length piece.old ≤ space.now.layout.end }
    ensures copies { IsTrue G.tells → IsReady attempt space.now (G.told outside.old) → (before : Bytes) → (G.told outside.old).held (Prefix attempt) ≡ Some before →
        length before ≡ place → Copies (byte_at (G.told outside.old) space.now) attempt at (length piece.old) before result (G.told outside.new) }
    ensures only { IsTrue G.tells → ChangesOnly (Only (Prefix attempt)) (G.told outside.old) (G.told outside.new) }
    ensures counts { CountsBy counted_work result (G.counts_of outside.old) (G.counts_of outside.new) }
{
    let count = space.read(outside, at, piece)?;
    if count < piece.len() {
        outside.note_damage();
        return Err(WorkFault::Damaged);
    }
    outside.write(FileName::Prefix(attempt), place, piece)?;
    Ok(())
}

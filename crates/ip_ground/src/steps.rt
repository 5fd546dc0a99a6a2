// The steps of a ground in memory, over its files and its log.
ghost use Rattle.std.specs.Prelude.{◌≡◌, ◌≤◌, ◌-◌, ◌↔◌, ◌++◌, [], ◌∷◌, length, min, take, drop, IfOk, OnOk, OnErr, IsTrue};
ghost use Rattle.ip_ground.specs.Told.{said, lending, IsLoose, MayTear, NoFile, ChangesOnly, Reopens, IsSyncedAs};
ghost use Rattle.ip_ground.specs.Calls.{Writes};
ghost use Rattle.ip_ground.specs.Custody.{custody_of, lent};
ghost use Rattle.ip_ground.specs.Replay.{told_by, durable_by, said_after, lent_after, keeps_files, keeps_durable};
ghost use Rattle.ip_ground.specs.Acting.{Acts, Plays};
ghost use Rattle.ip_ground.specs.Map.{content_in, IsTied, KeepsSynced};
ghost use Rattle.ip_ground.specs.declared.event.Event.TheVariants.{Wrote, Removed, Synced, Said, Changed};

use crate::contents::{Files, copied, discard, replace, write_over};
use crate::event::Event;
use crate::{Act, FileName, GroundFault};
use std::alloc::{AllocError, Global};

// The bytes from a place on, as many as there are and as fit.
pub fn copy_out(bytes: &[u8], at: u64, out: &mut [u8]) -> usize
    ensures count { result ≡ min (length out.old) (length bytes.now - at) }
    ensures copied { take result out.new ≡ take result (drop at bytes.now) }
{
    let from = (at as usize).min(bytes.len());
    let count = out.len().min(bytes.len() - from);
    out[..count].copy_from_slice(&bytes[from..from + count]);
    count
}

// A write that is done: in the files, and in the log. It is done whole or not at all.
pub fn note_write(
    alloc: Global,
    files: &mut Files,
    log: &mut Vec<Event>,
    file: FileName,
    at: u64,
    bytes: &[u8],
) -> Result<(), AllocError>
    requires tied { IsTied files.old log.old.items }
    ensures tied { IsTied files.new log.new.items }
    ensures ok { OnOk result ((v : _) × (v.items ≡ bytes.now) × (log.new.items ≡ log.old.items ++ Wrote file at v ∷ [])) }
    ensures err { OnErr result (log.new.items ≡ log.old.items) }
    ensures durable { (file : _) → durable_by log.new.items file ≡ durable_by log.old.items file }
{
    let copy = bytes.to_vec(alloc)?;
    log.reserve(1)?;
    write_over(alloc, files, file, at as usize, bytes)?;
    match log.push(Event::Wrote {
        file,
        at,
        bytes: copy,
    }) {
        Ok(()) => Ok(()),
        Err(_) => unreachable!(),
    }
}

// What was said since the last stop.
pub fn said_in(alloc: Global, log: &[Event]) -> Result<Vec<u8>, AllocError>
    ensures { IfOk result (λ v. v.items ≡ said (told_by log.now)) }
{
    let mut out = Vec::new(alloc);
    for event in log {
        say_again(event, &mut out)?;
    }
    Ok(out)
}

// What was said after one more event.
fn say_again(event: &Event, out: &mut Vec<u8>) -> Result<(), AllocError>
    ensures { OnOk result (out.new.items ≡ said_after event.now out.old.items) }
{
    match event {
        Event::Said { bytes } => out.extend_from_slice(bytes)?,
        Event::Stopped { .. } => out.clear(),
        _ => {}
    }
    Ok(())
}

// Whether the child may change the files of this attempt.
fn is_lent(log: &[Event], attempt: u64) -> bool
    ensures { IsTrue result ↔ (lending (told_by log.now) attempt ≡ lent) }
{
    let mut is_lent = false;
    for event in log {
        is_lent = is_lent_after(event, attempt, is_lent);
    }
    is_lent
}

fn is_lent_after(event: &Event, attempt: u64, before: bool) -> bool
    ensures { result ≡ lent_after event.now attempt before }
{
    match event {
        Event::Lent { attempt: other } => *other == attempt || before,
        Event::Settled { attempt: other } => *other != attempt && before,
        _ => before,
    }
}

// Whether the child may change this file.
fn is_foreign(log: &[Event], file: FileName) -> bool
    ensures { IsTrue result ↔ (custody_of (lending (told_by log.now)) file ≡ lent) }
{
    match file {
        FileName::Control | FileName::Chunk(_) => false,
        FileName::Prefix(attempt) | FileName::Mapping(attempt) | FileName::Done(attempt) => {
            is_lent(log, attempt)
        }
    }
}

// One act of the child, if it comes before this call. On a file that is not lent it does nothing.
fn apply(
    alloc: Global,
    files: &mut Files,
    log: &mut Vec<Event>,
    act: &Act,
    call: u64,
) -> Result<(), AllocError>
    requires tied { IsTied files.old log.old.items }
    ensures tied { IsTied files.new log.new.items }
    ensures acts { OnOk result (Acts act.now call log.old.items log.new.items) }
    ensures only { ChangesOnly NoFile (told_by log.old.items) (told_by log.new.items) }
    ensures durable { (file : _) → durable_by log.new.items file ≡ durable_by log.old.items file }
{
    if act.before != call || !is_foreign(log, act.file) {
        return Ok(());
    }
    match &act.bytes {
        Some(bytes) => note_made(alloc, files, log, act.file, bytes),
        None => note_gone(files, log, act.file),
    }
}

// The child made a file.
fn note_made(
    alloc: Global,
    files: &mut Files,
    log: &mut Vec<Event>,
    file: FileName,
    bytes: &[u8],
) -> Result<(), AllocError>
    requires tied { IsTied files.old log.old.items }
    requires lent { custody_of (lending (told_by log.old.items)) file ≡ lent }
    ensures tied { IsTied files.new log.new.items }
    ensures noted { OnOk result ((v : _) × (v.items ≡ bytes.now) × (log.new.items ≡ log.old.items ++ Changed file (Some v) ∷ [])) }
    ensures only { ChangesOnly NoFile (told_by log.old.items) (told_by log.new.items) }
    ensures durable { (file : _) → durable_by log.new.items file ≡ durable_by log.old.items file }
{
    let next = bytes.to_vec(alloc)?;
    let copy = bytes.to_vec(alloc)?;
    log.reserve(1)?;
    replace(files, file, next)?;
    match log.push(Event::Changed {
        file,
        bytes: Some(copy),
    }) {
        Ok(()) => Ok(()),
        Err(_) => unreachable!(),
    }
}

// The child removed a file.
fn note_gone(files: &mut Files, log: &mut Vec<Event>, file: FileName) -> Result<(), AllocError>
    requires tied { IsTied files.old log.old.items }
    requires lent { custody_of (lending (told_by log.old.items)) file ≡ lent }
    ensures tied { IsTied files.new log.new.items }
    ensures noted { OnOk result (log.new.items ≡ log.old.items ++ Changed file None ∷ []) }
    ensures only { ChangesOnly NoFile (told_by log.old.items) (told_by log.new.items) }
    ensures durable { (file : _) → durable_by log.new.items file ≡ durable_by log.old.items file }
{
    log.push(Event::Changed { file, bytes: None })?;
    discard(files, file);
    Ok(())
}

// What changes no file, and makes none durable.
pub fn note(files: &Files, log: &mut Vec<Event>, event: Event) -> Result<(), AllocError>
    requires kept { IsTrue (keeps_files event) }
    requires kept_durable { IsTrue (keeps_durable event) }
    requires tied { IsTied files.now log.old.items }
    ensures tied { IsTied files.now log.new.items }
    ensures ok { OnOk result (log.new.items ≡ log.old.items ++ event ∷ []) }
    ensures err { OnErr result (log.new.items ≡ log.old.items) }
    ensures durable { (file : _) → durable_by log.new.items file ≡ durable_by log.old.items file }
{
    let _ = files;
    log.push(event)?;
    Ok(())
}

// A write that failed: a crash may leave any bytes in its range.
pub fn note_failed(
    files: &Files,
    log: &mut Vec<Event>,
    file: FileName,
    at: u64,
    bytes: &[u8],
) -> Result<(), AllocError>
    requires tied { IsTied files.now log.old.items }
    ensures tied { IsTied files.now log.new.items }
    ensures does { (fault : GroundFault) → Writes file at bytes.now (Err fault) (told_by log.old.items) (told_by log.new.items) }
    ensures ok { OnOk result (MayTear file at (length bytes.now) (told_by log.old.items) (told_by log.new.items)) }
    ensures err { OnErr result (log.new.items ≡ log.old.items) }
    ensures durable { (file : _) → durable_by log.new.items file ≡ durable_by log.old.items file }
{
    let count = bytes.len() as u64;
    note(files, log, Event::Failed { file, at, count })
}

// Bytes that are said. They are said whole or not at all.
pub fn note_said(
    alloc: Global,
    files: &Files,
    log: &mut Vec<Event>,
    bytes: &[u8],
) -> Result<(), AllocError>
    requires tied { IsTied files.now log.old.items }
    ensures tied { IsTied files.now log.new.items }
    ensures ok { OnOk result ((v : _) × (v.items ≡ bytes.now) × (log.new.items ≡ log.old.items ++ Said v ∷ [])) }
    ensures err { OnErr result (log.new.items ≡ log.old.items) }
    ensures durable { (file : _) → durable_by log.new.items file ≡ durable_by log.old.items file }
{
    let copy = bytes.to_vec(alloc)?;
    note(files, log, Event::Said { bytes: copy })
}

// A sync that is done.
pub fn note_sync(
    alloc: Global,
    files: &Files,
    kept: &mut Files,
    log: &mut Vec<Event>,
    file: FileName,
) -> Result<(), AllocError>
    requires tied { IsTied files.now log.old.items }
    requires synced { KeepsSynced kept.old log.old.items }
    ensures tied { IsTied files.now log.new.items }
    ensures synced { KeepsSynced kept.new log.new.items }
    ensures ok { OnOk result (log.new.items ≡ log.old.items ++ Synced file ∷ []) }
    ensures err { OnErr result (log.new.items ≡ log.old.items) }
{
    let Some(bytes) = files.get(&file) else {
        log.push(Event::Synced { file })?;
        discard(kept, file);
        return Ok(());
    };
    let copy = bytes.to_vec(alloc)?;
    log.reserve(1)?;
    replace(kept, file, copy)?;
    match log.push(Event::Synced { file }) {
        Ok(()) => Ok(()),
        Err(_) => unreachable!(),
    }
}

// A removal that is done.
pub fn note_remove(
    files: &mut Files,
    log: &mut Vec<Event>,
    file: FileName,
) -> Result<(), AllocError>
    requires tied { IsTied files.old log.old.items }
    ensures tied { IsTied files.new log.new.items }
    ensures ok { OnOk result (log.new.items ≡ log.old.items ++ Removed file ∷ []) }
    ensures err { OnErr result (log.new.items ≡ log.old.items) }
    ensures durable { (file : _) → durable_by log.new.items file ≡ durable_by log.old.items file }
{
    log.push(Event::Removed { file })?;
    discard(files, file);
    Ok(())
}

// What the child does before a call.
pub fn play(
    alloc: Global,
    child: &[Act],
    call: u64,
    files: &mut Files,
    log: &mut Vec<Event>,
) -> Result<(), AllocError>
    requires tied { IsTied files.old log.old.items }
    ensures tied { IsTied files.new log.new.items }
    ensures plays { OnOk result (Plays child.now call log.old.items log.new.items) }
    ensures only { ChangesOnly NoFile (told_by log.old.items) (told_by log.new.items) }
    ensures durable { (file : _) → durable_by log.new.items file ≡ durable_by log.old.items file }
{
    for act in child {
        apply(alloc, files, log, act, call)?;
    }
    Ok(())
}

// A stop after which all that was written is there, though it may still be lost.
pub fn stop_with_all(files: &Files, kept: &Files, log: &mut Vec<Event>) -> Result<(), AllocError>
    requires tied { IsTied files.now log.old.items }
    requires synced { KeepsSynced kept.now log.old.items }
    ensures tied { IsTied files.now log.new.items }
    ensures synced { KeepsSynced kept.now log.new.items }
    ensures reopens { OnOk result (Reopens (told_by log.old.items) (told_by log.new.items)) }
    ensures all { OnOk result ((file : _) → (told_by log.new.items).held file ≡ (told_by log.old.items).held file) }
{
    let _ = files;
    let _ = kept;
    log.push(Event::Stopped { keep: true })?;
    Ok(())
}

// A stop after which only what was synced is there.
pub fn stop_with_synced(
    files: &mut Files,
    kept: &Files,
    log: &mut Vec<Event>,
) -> Result<(), AllocError>
    requires tied { IsTied files.old log.old.items }
    requires synced { KeepsSynced kept.now log.old.items }
    ensures tied { IsTied files.new log.new.items }
    ensures synced { KeepsSynced kept.now log.new.items }
    ensures reopens { OnOk result (Reopens (told_by log.old.items) (told_by log.new.items)) }
    ensures last { OnOk result ((file : _) → ¬ IsLoose (told_by log.old.items) file → IsSyncedAs (told_by log.old.items) file ((told_by log.new.items).held file)) }
{
    let copy = copied(kept)?;
    log.push(Event::Stopped { keep: false })?;
    *files = copy;
    Ok(())
}

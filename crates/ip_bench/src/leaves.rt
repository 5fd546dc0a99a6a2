// What the children of a scene leave.
use crate::contents::{bytes_by, content_of};
use crate::stage::{Fault, HONEST, Played, play_behind};
use crate::watch::Watch;
use ip_bench_text::{Child, Left, Scene};
use ip_ground::{Act, Acts, FileName};
use ip_spawn::Scripted;
use ip_worker::collect;
use std::alloc::Global;
use std::test::Fail;

/// What the child of an attempt leaves: its mapping, its prefix and its done file, each where it is there.
#[derive(Drop)]
pub struct Leaves {
    attempt: u64,
    /// The number of the call of the ground from which on it may leave them.
    from: u64,
    mapping: Option<Vec<u8>>,
    prefix: Option<Vec<u8>>,
    done: Option<Vec<u8>>,
}

// A child acts before every other one of so many calls of a ground.
const CALLS: u64 = 400;

// Before a call a child puts there what it leaves of a file.
fn put_act(
    alloc: Global,
    before: u64,
    file: FileName,
    left: &Option<Vec<u8>>,
    acts: &mut Acts,
) -> Result<(), Fail> {
    let Some(bytes) = left else {
        return Ok(());
    };
    let bytes = Some(Vec::from_slice(alloc, bytes)?);
    Ok(acts.push(Act {
        before,
        file,
        bytes,
    })?)
}

// A child puts there what it leaves again and again, as far as it may.
fn put_leaves(alloc: Global, leaves: &Leaves, acts: &mut Acts) -> Result<(), Fail> {
    let attempt = leaves.attempt;
    for count in 0..CALLS / 2 {
        let before = leaves.from.saturating_add(count.saturating_mul(2));
        put_act(
            alloc,
            before,
            FileName::Mapping(attempt),
            &leaves.mapping,
            acts,
        )?;
        put_act(
            alloc,
            before,
            FileName::Prefix(attempt),
            &leaves.prefix,
            acts,
        )?;
        put_act(alloc, before, FileName::Done(attempt), &leaves.done, acts)?;
    }
    Ok(())
}

/// Puts what children do before calls of the ground: what the scene says by numbers, and what they leave.
pub fn put_acts(scene: &Scene, all: &[Leaves], acts: &mut Acts) -> Result<(), Fail> {
    for early in &scene.early {
        let bytes = match &early.bytes {
            Some(bytes) => Some(Vec::from_slice(scene.alloc, bytes)?),
            None => None,
        };
        acts.push(Act {
            before: early.before,
            file: early.file,
            bytes,
        })?;
    }
    for leaves in all {
        put_leaves(scene.alloc, leaves, acts)?;
    }
    Ok(())
}

// The first bytes, so many, and all others.
fn parted_at(bytes: &[u8], count: u64) -> (&[u8], &[u8]) {
    let count = (count as usize).min(bytes.len());
    (
        bytes.get(..count).unwrap_or(&[]),
        bytes.get(count..).unwrap_or(&[]),
    )
}

// What is left of a file, by what the worker writes there.
fn left_of(
    alloc: Global,
    ground: &mut Watch,
    worked: &Vec<u8>,
    left: &Left,
) -> Result<Option<Vec<u8>>, Fail> {
    let mut out = Vec::new(alloc);
    match left {
        Left::Absent => return Ok(None),
        Left::Whole => out.extend_from_slice(worked)?,
        Left::Longer => {
            out.extend_from_slice(worked)?;
            out.push(0)?;
        }
        Left::Byte(at, byte) => {
            out.extend_from_slice(worked)?;
            *out.get_mut(*at as usize).ok_or("no such byte")? = *byte;
        }
        Left::Cut(count) => out.extend_from_slice(parted_at(worked, *count).0)?,
        Left::More(at, byte) => {
            let (front, rest) = parted_at(worked, *at);
            out.extend_from_slice(front)?;
            out.push(*byte)?;
            out.extend_from_slice(rest)?;
        }
        Left::Turned(count) => {
            let (front, rest) = parted_at(worked, *count);
            out.extend_from_slice(rest)?;
            out.extend_from_slice(front)?;
        }
        Left::Behind(front) => {
            out.extend_from_slice(&bytes_by(alloc, ground, front)?)?;
            out.extend_from_slice(worked)?;
        }
        Left::Bytes(bytes) => out.extend_from_slice(&bytes_by(alloc, ground, bytes)?)?,
    }
    Ok(Some(out))
}

// What is left of a file.
fn left_by(
    alloc: Global,
    ground: &mut Watch,
    file: FileName,
    left: &Left,
) -> Result<Option<Vec<u8>>, Fail> {
    match content_of(alloc, ground, file)? {
        Some(worked) => left_of(alloc, ground, &worked, left),
        None => Err("the worker writes no such file")?,
    }
}

// Runs the worker for the last child that was started. Its attempt.
fn work(alloc: Global, ground: &mut Watch, children: &Scripted) -> Result<u64, Fail> {
    let Some(child) = children.started().last() else {
        return Err("none was started")?;
    };
    let job = child.job;
    if !job.valid() || collect(alloc, &job, ground).is_err() {
        return Err("no pair")?;
    }
    Ok(job.attempt)
}

// Before which call of the ground the last child may act first that is started by this front of the open call's script. It is an even one. Where calls fail
// the child is started elsewhere than where none does.
fn first_act(scene: &Scene, script: &[u8], all: &[Leaves], played: &Played) -> Result<u64, Fail> {
    if scene.ground_fails.is_empty() && scene.stop.is_none() {
        return Ok(played.ground.lent / 2 * 2);
    }
    let failing = play_behind(scene, all, script, Fault::Nothing)?;
    Ok(failing.ground.lent / 2 * 2)
}

// What the last child leaves that is started by this front of the open call's script, behind what the scene has done so far.
fn last_left(scene: &Scene, script: &[u8], all: &[Leaves]) -> Result<Leaves, Fail> {
    let alloc = scene.alloc;
    let mut played = play_behind(scene, all, script, Fault::Never)?;
    let from = first_act(scene, script, all, &played)?;
    let ground = &mut played.ground;
    let attempt = work(alloc, ground, &played.children)?;
    let whole = Child::of(HONEST);
    let child = scene.children.get(all.len()).unwrap_or(&whole);
    Ok(Leaves {
        attempt,
        from,
        mapping: left_by(alloc, ground, FileName::Mapping(attempt), &child.mapping)?,
        prefix: left_by(alloc, ground, FileName::Prefix(attempt), &child.prefix)?,
        done: left_by(alloc, ground, FileName::Done(attempt), &child.done)?,
    })
}

/// Puts what each child leaves that the open call starts, and that is not known yet: as that rests on the store, the call is made up to its start for it.
pub fn put_left(scene: &Scene, all: &mut Vec<Leaves>) -> Result<(), Fail> {
    let mut started = scene.started();
    for length in &scene.open.starts {
        started = started.saturating_add(1);
        if started > all.len() {
            let leaves = last_left(scene, scene.open.front(*length), all)?;
            all.push(leaves)?;
        }
    }
    Ok(())
}

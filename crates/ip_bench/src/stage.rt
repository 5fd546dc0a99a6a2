// A scene on a ground in memory.
ghost use Rattle.std.specs.Prelude.{◌≡◌, IfOk, None};

use crate::calls::{init_with, source, words_of};
use crate::contents::{bytes_by, content_of, replace};
use crate::leaves::{Leaves, put_acts};
use crate::pieces::Pieces;
use crate::rules::rules_of;
use crate::watch::Watch;
use ip_app::{Silent, Status, run};
use ip_base::Exit;
use ip_bench_text::{Act, Call, Change, Scene};
use ip_ground::{Bench, FileName, Ground, GroundCounts};
use ip_spawn::{Plan, Scripted, Spawner};
use std::alloc::Global;
use std::test::Fail;

/// Which calls go wrong besides those that the scene names.
#[derive(Clone, Copy)]
pub enum Fault {
    /// Not even those that the scene names, but of children.
    Never,
    Nothing,
    /// The call of the ground of this number fails.
    Call(u64),
    /// From the call of this number on all fail.
    Stop(u64),
    /// The read of the source of this number fails.
    Read(u64),
}

/// How the last call went.
#[derive(Drop)]
pub struct Played {
    pub ground: Watch,
    pub children: Scripted,
    pub status: Status,
    /// What was said to it.
    pub said: Vec<u8>,
    /// The file of each read.
    pub asked: Vec<FileName>,
    /// What it counted.
    pub faults: GroundCounts,
}

/// A child that ends by itself, once it is waited for.
pub const HONEST: Plan = Plan {
    looks: 0,
    exit: Exit::Code(0),
};

// The ground on which a scene begins, with its store, if one is made.
fn ground_for(scene: &Scene, all: &[Leaves], fault: Fault) -> Result<Watch, Fail> {
    let alloc = scene.alloc;
    let mut fails = Vec::from_slice(alloc, &scene.ground_fails)?;
    let mut stop = scene.stop;
    match fault {
        Fault::Never => {
            fails = Vec::new(alloc);
            stop = None;
        }
        Fault::Call(call) => fails.push(call)?,
        Fault::Stop(call) => stop = Some(call),
        _ => (),
    }
    let mut acts = Vec::new(alloc);
    put_acts(scene, all, &mut acts)?;
    let mut bench = Bench::new(alloc, fails, stop, acts);
    if let Some(size) = &scene.chunk {
        init_with(alloc, &mut bench, size)?;
        let mut ground = Watch::new(alloc, bench);
        ground.calls = 4;
        return Ok(ground);
    }
    Ok(Watch::new(alloc, bench))
}

// Children by their plans, of which so many were started before, and more that are honest.
fn children_for(scene: &Scene, first: usize) -> Result<Scripted, Fail>
    ensures { IfOk result (λ children. ⟦<Scripted as Spawner>⟧.held children ≡ None) }
{
    let mut plans = Vec::new(scene.alloc);
    for child in scene.children.iter().skip(first) {
        plans.push(child.plan)?;
    }
    for _ in 0..64 {
        plans.push(HONEST)?;
    }
    let fails = Vec::from_slice(scene.alloc, &scene.spawner_fails)?;
    Ok(Scripted::new(scene.alloc, plans, fails))
}

// The source of a script, whose reads fail by their numbers.
fn source_for(scene: &Scene, script: &[u8], fault: Fault) -> Result<Pieces, Fail> {
    let mut fails = Vec::from_slice(scene.alloc, &scene.source_fails)?;
    match fault {
        Fault::Never => fails = Vec::new(scene.alloc),
        Fault::Read(read) => fails.push(read)?,
        _ => (),
    }
    Ok(Pieces {
        bytes: source(scene.alloc, script, &fails)?,
        most: scene.pieces,
    })
}

// What has been counted since.
fn counted_since(before: GroundCounts, after: GroundCounts) -> GroundCounts {
    GroundCounts {
        file_faults: after.file_faults.saturating_sub(before.file_faults),
        remove_faults: after.remove_faults.saturating_sub(before.remove_faults),
        say_faults: after.say_faults.saturating_sub(before.say_faults),
        damages: after.damages.saturating_sub(before.damages),
    }
}

/// What is called, and with which script.
#[derive(Clone, Copy)]
pub struct Called<'a> {
    pub words: &'a str,
    pub script: &'a [u8],
    pub changes: &'a [Change],
}

/// Calls the program over a ground, by children of which so many were started before.
pub fn make_call(
    scene: &Scene,
    mut ground: Watch,
    called: Called,
    first: usize,
    fault: Fault,
) -> Result<Played, Fail> {
    let alloc = scene.alloc;
    let Some(rules) = rules_of(scene.rules.as_str()) else {
        return Err("no such rules")?;
    };
    let words = words_of(alloc, called.words)?;
    let (said, before) = (ground.said(alloc)?.len(), ground.counts());
    let mut children = children_for(scene, first)?;
    let mut script = source_for(scene, called.script, fault)?;
    ground.asked = Vec::new(alloc);
    ground.changes = Vec::from_slice(alloc, called.changes)?;
    let status = run(
        alloc,
        &words,
        &mut script,
        &mut ground,
        &mut children,
        &rules,
        &mut Silent,
    );
    outcome_of(alloc, ground, children, status, (said, before))
}

// How a call went before which so many bytes were said, and this was counted.
fn outcome_of(
    alloc: Global,
    mut ground: Watch,
    children: Scripted,
    status: Status,
    before: (usize, GroundCounts),
) -> Result<Played, Fail> {
    let said = ground.said(alloc)?;
    let said = Vec::from_slice(alloc, said.get(before.0..).unwrap_or(&[]))?;
    let faults = counted_since(before.1, ground.counts());
    let asked = Vec::from_slice(alloc, &ground.asked)?;
    ground.asked = Vec::new(alloc);
    ground.changes = Vec::new(alloc);
    Ok(Played {
        ground,
        children,
        status,
        said,
        asked,
        faults,
    })
}

// Changes what a file holds.
fn change(alloc: Global, ground: &mut Watch, act: &Act) -> Result<(), Fail> {
    match act {
        Act::Put(file, pieces) => {
            let bytes = bytes_by(alloc, ground, pieces)?;
            replace(ground, *file, &Some(bytes))
        }
        Act::Remove(file) => replace(ground, *file, &None),
        Act::Byte(file, at, byte) => {
            let mut content = content_of(alloc, ground, *file)?;
            let bytes = content.as_mut().ok_or("no such file")?;
            *bytes.get_mut(*at as usize).ok_or("no such byte")? = *byte;
            replace(ground, *file, &content)
        }
        Act::Cut(file, length) => {
            let mut content = content_of(alloc, ground, *file)?;
            let bytes = content.as_mut().ok_or("no such file")?;
            bytes.truncate(*length as usize);
            replace(ground, *file, &content)
        }
        _ => Ok(()),
    }
}

/// The words of a call.
pub fn words_in(call: &Call) -> &str {
    match &call.words {
        Some(words) => words.as_str(),
        None => "serve mem",
    }
}

/// Does what the scene has done so far, on a new ground over which children leave this. The ground, and how many children were started.
pub fn stage(scene: &Scene, all: &[Leaves], fault: Fault) -> Result<(Watch, usize), Fail> {
    let mut ground = ground_for(scene, all, fault)?;
    let mut first = 0usize;
    for act in &scene.acts {
        match act {
            Act::Play(call) => {
                let called = Called {
                    words: words_in(call),
                    script: &call.script,
                    changes: &call.changes,
                };
                let fault = match fault {
                    Fault::Never => Fault::Never,
                    _ => Fault::Nothing,
                };
                ground = make_call(scene, ground, called, first, fault)?.ground;
                first = first.saturating_add(call.starts.len());
            }
            Act::Reopen(keep) => ground = ground.after_stop(*keep)?,
            _ => change(scene.alloc, &mut ground, act)?,
        }
    }
    Ok((ground, first))
}

/// Makes the open call with this front of its script, behind what the scene has done so far, over which children leave this.
pub fn play_behind(
    scene: &Scene,
    all: &[Leaves],
    script: &[u8],
    fault: Fault,
) -> Result<Played, Fail> {
    let (ground, first) = stage(scene, all, fault)?;
    let called = Called {
        words: words_in(&scene.open),
        script,
        changes: &scene.open.changes,
    };
    make_call(scene, ground, called, first, fault)
}

/// Makes the open call whole.
pub fn play_open(scene: &Scene, all: &[Leaves]) -> Result<Played, Fail> {
    play_behind(scene, all, &scene.open.script, Fault::Nothing)
}

/// What there is behind what the scene has done so far, where the last thing was no call: the ground alone.
pub fn restaged(scene: &Scene, all: &[Leaves]) -> Result<Played, Fail> {
    let (ground, first) = stage(scene, all, Fault::Nothing)?;
    let before = (ground.said(scene.alloc)?.len(), ground.counts());
    let children = children_for(scene, first)?;
    outcome_of(scene.alloc, ground, children, Status::Done, before)
}

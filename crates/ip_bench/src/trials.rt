// A call that is made again and again, with one that fails, or a stop, at each place.
use crate::leaves::Leaves;
use crate::stage::{Called, Fault, Played, make_call, play_behind, stage};
use ip_app::Status;
use ip_bench_text::{Scene, Trial};
use ip_ground::{Ground, GroundCounts};
use std::alloc::Global;
use std::test::Fail;

// The number of the first trial: behind the calls that the scene has made so far.
fn first_of(scene: &Scene, left: &[Leaves], trial: Trial) -> Result<u64, Fail> {
    match trial {
        Trial::ReadFails => Ok(0),
        _ => Ok(stage(scene, left, Fault::Nothing)?.0.calls),
    }
}

// Which fault the trial of this number makes.
fn fault_of(trial: Trial, number: u64) -> Fault {
    match trial {
        Trial::CallFails => Fault::Call(number),
        Trial::ReadFails => Fault::Read(number),
        Trial::Stops(_) => Fault::Stop(number),
    }
}

// The replies without what tells of one removal that failed, which one of them may say.
fn without_left(alloc: Global, said: &[u8]) -> Result<String, Fail> {
    let Ok(text) = str::from_utf8(said) else {
        return Err("a reply is no text")?;
    };
    let mut out = String::new(alloc);
    let mut is_told = false;
    for line in text.split_inclusive('\n') {
        match line.strip_suffix(" left 1\n") {
            Some(line) if !is_told => {
                is_told = true;
                out.push_str(line)?;
                out.push('\n')?;
            }
            _ => out.push_str(line)?,
        }
    }
    Ok(out)
}

fn count_lines(bytes: &[u8]) -> usize {
    bytes.iter().filter(|byte| **byte == b'\n').count()
}

// How many replies were said whole. What was said is a front of all.
fn count_said(alloc: Global, said: &[u8], all: &[u8]) -> Result<usize, Fail> {
    let said = without_left(alloc, said)?;
    if !all.starts_with(said.as_bytes()) {
        return Err(Fail::new(format_args!("said was {said:?}")));
    }
    Ok(count_lines(said.as_bytes()))
}

// What a store is answered behind so many lines, where the scene says it.
fn standing(scene: &Scene, count: usize) -> Option<&str> {
    let name = match scene.open.marks.get(count) {
        Some(name) => name,
        None => scene.open.marks.last()?,
    };
    for stand in &scene.stands {
        if stand.name == *name {
            return Some(&stand.replies);
        }
    }
    None
}

// What a store is answered that is asked behind a call.
fn told_behind(scene: &Scene, played: Played, trial: Trial) -> Result<Vec<u8>, Fail> {
    let mut ground = played.ground;
    if let Trial::Stops(keep) = trial {
        ground = ground.after_stop(keep)?;
    }
    let called = Called {
        words: "serve mem",
        script: &scene.asked,
        changes: &[],
    };
    let played = make_call(scene, ground, called, 0, Fault::Nothing)?;
    Ok(played.said)
}

// What a store is answered behind each number of lines: what the scene says, or else what it is answered where no call goes wrong.
fn all_told(scene: &Scene, left: &[Leaves]) -> Result<Vec<Vec<u8>>, Fail> {
    let mut all = Vec::new(scene.alloc);
    for count in 0..=scene.open.ends.len() {
        if let Some(replies) = standing(scene, count) {
            all.push(Vec::from_slice(scene.alloc, replies.as_bytes())?)?;
        } else {
            let front = scene.open.first_lines(count);
            let played = play_behind(scene, left, front, Fault::Nothing)?;
            all.push(told_behind(scene, played, Trial::Stops(true))?)?;
        }
    }
    Ok(all)
}

// A call that is tried: where it stands, and what a store is answered behind each number of its lines.
#[derive(Drop)]
struct Story<'a> {
    scene: &'a Scene,
    told: Vec<Vec<u8>>,
}

// What stands is what stood behind the lines that were answered, or behind one more.
fn test_standing(
    story: &Story,
    count: usize,
    played: Played,
    trial: Trial,
    number: u64,
) -> Result<(), Fail> {
    let told = told_behind(story.scene, played, trial)?;
    let behind = story.told.get(count) == Some(&told);
    if behind || story.told.get(count.saturating_add(1)) == Some(&told) {
        return Ok(());
    }
    let told = str::from_utf8(&told).unwrap_or("no text");
    Err(Fail::new(format_args!("trial {number}, behind {count} replies: {told:?}")))
}

// Whether the counts tell what the status says of the one call that failed. Where no folder is served a removal that fails is a fault of the disk too.
fn is_told(scene: &Scene, status: Status, counts: &GroundCounts) -> bool {
    let removals = match scene.open.words {
        Some(_) => counts.remove_faults,
        None => 0,
    };
    match status {
        Status::GroundFault => counts.file_faults.saturating_add(removals) == 1,
        Status::SayFault => counts.say_faults == 1,
        Status::Done => counts.file_faults == 0 && counts.say_faults == 0,
        _ => false,
    }
}

// Whether no call went wrong.
fn is_through(played: &Played, trial: Trial) -> bool {
    let counts = played.ground.counts();
    match trial {
        Trial::CallFails => {
            counts.file_faults == 0 && counts.remove_faults == 0 && counts.say_faults == 0
        }
        _ => played.status == Status::Done,
    }
}

// A call in which one went wrong has said a front of all, tells which kind it was, and leaves what was acknowledged. Whether it went to its end.
fn test_one(story: &Story, played: Played, trial: Trial, number: u64) -> Result<bool, Fail> {
    let scene = story.scene;
    let count = count_said(scene.alloc, &played.said, &scene.open.replies)?;
    let status = played.status;
    let is_told = match trial {
        Trial::CallFails => is_told(scene, status, &played.ground.counts()),
        Trial::ReadFails => status == Status::ReadFault,
        Trial::Stops(_) => true,
    };
    if !is_told {
        return Err(Fail::new(format_args!("trial {number} ended by {status:?}")));
    }
    if played.status == Status::Done {
        if count != count_lines(&scene.open.replies) {
            return Err("not all was said")?;
        }
        return Ok(true);
    }
    test_standing(story, count, played, trial, number)?;
    Ok(false)
}

// The trials, up to the first in which no call goes wrong: how many there were, and how many of them went to their end.
fn tried(story: &Story, left: &[Leaves], trial: Trial) -> Result<(u64, u64), Fail> {
    let (mut count, mut through) = (0u64, 0u64);
    let script = &story.scene.open.script;
    let first = first_of(story.scene, left, trial)?;
    for number in first..u64::MAX {
        let played = play_behind(story.scene, left, script, fault_of(trial, number))?;
        if is_through(&played, trial) {
            break;
        }
        count = count.saturating_add(1);
        if test_one(story, played, trial, number)? {
            through = through.saturating_add(1);
        }
    }
    Ok((count, through))
}

/// Makes the open call behind what the scene has done with a fault at each call behind the making of a store: at so many, of which so many go to their end.
pub fn test_each(
    scene: &Scene,
    left: &[Leaves],
    trial: Trial,
    counts: (u64, u64),
) -> Result<(), Fail> {
    let story = Story {
        scene,
        told: all_told(scene, left)?,
    };
    let found = tried(&story, left, trial)?;
    if found == counts {
        return Ok(());
    }
    Err(Fail::new(format_args!("the trials were {found:?}")))
}

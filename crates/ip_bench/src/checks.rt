// What has to be so behind a call.
use crate::contents::{bytes_by, content_of};
use crate::stage::Played;
use crate::watch::Watch;
use ip_base::Exit;
use ip_bench_text::{Piece, Test};
use ip_ground::{FileName, Ground};
use sha2::{Digest, Sha256};
use std::alloc::Global;
use std::test::Fail;

// What a file holds that is there.
fn whole(alloc: Global, ground: &mut Watch, file: FileName) -> Result<Vec<u8>, Fail> {
    match content_of(alloc, ground, file)? {
        Some(bytes) => Ok(bytes),
        None => Err(Fail::new(format_args!("{file:?} is not there"))),
    }
}

// The first place where the one is another than the other.
fn first_other(found: &[u8], want: &[u8]) -> usize {
    let mut at = 0usize;
    for (found, want) in found.iter().zip(want) {
        if found != want {
            break;
        }
        at = at.saturating_add(1);
    }
    at
}

fn holds(alloc: Global, ground: &mut Watch, file: FileName, pieces: &[Piece]) -> Result<(), Fail> {
    let want = bytes_by(alloc, ground, pieces)?;
    let found = whole(alloc, ground, file)?;
    if found == want {
        return Ok(());
    }
    let (at, count) = (first_other(&found, &want), found.len());
    Err(Fail::new(format_args!("{file:?} has {count} bytes, and another one at {at}")))
}

fn holds_at(
    alloc: Global,
    ground: &mut Watch,
    file: FileName,
    at: u64,
    pieces: &[Piece],
) -> Result<(), Fail> {
    let want = bytes_by(alloc, ground, pieces)?;
    let bytes = whole(alloc, ground, file)?;
    let found = bytes.get(at as usize..).unwrap_or(&[]);
    if found.starts_with(&want) {
        return Ok(());
    }
    let at = at.saturating_add(first_other(found, &want) as u64);
    Err(Fail::new(format_args!("{file:?} holds something else at {at}")))
}

fn length(ground: &mut Watch, file: FileName, want: u64) -> Result<(), Fail> {
    match ground.length(file) {
        Ok(Some(length)) if length == want => Ok(()),
        found => Err(Fail::new(format_args!("{file:?} has {found:?} bytes"))),
    }
}

fn digest(alloc: Global, ground: &mut Watch, file: FileName, want: &[u8]) -> Result<(), Fail> {
    let bytes = whole(alloc, ground, file)?;
    let found = Sha256::digest(&bytes);
    if found.as_slice() == want {
        return Ok(());
    }
    let found = hex::encode(alloc, found.as_slice())?;
    Err(Fail::new(format_args!("{file:?} has the digest {found}")))
}

// Each of these files is there, or none is.
fn is_there(ground: &mut Watch, file: FileName, want: bool) -> Result<(), Fail> {
    match ground.length(file) {
        Ok(found) if found.is_some() == want => Ok(()),
        found => Err(Fail::new(format_args!("{file:?} has {found:?} bytes"))),
    }
}

fn absent(ground: &mut Watch, files: &[FileName]) -> Result<(), Fail> {
    for file in files {
        is_there(ground, *file, false)?;
    }
    Ok(())
}

// Of the chunks and of the files of attempts with the numbers up to three these are there, and no others.
fn held(ground: &mut Watch, files: &[FileName]) -> Result<(), Fail> {
    for number in 0..4 {
        let all = [
            FileName::Chunk(number),
            FileName::Mapping(number),
            FileName::Prefix(number),
            FileName::Done(number),
        ];
        for file in all {
            is_there(ground, file, files.contains(&file))?;
        }
    }
    Ok(())
}

fn reads(asked: &[FileName], file: FileName, want: u64) -> Result<(), Fail> {
    let found = asked.iter().filter(|asked| **asked == file).count();
    if found as u64 == want {
        return Ok(());
    }
    Err(Fail::new(format_args!("{file:?} was read {found} times")))
}

fn faults(played: &Played, want: (u64, u64, u64)) -> Result<(), Fail> {
    let found = &played.faults;
    if (found.file_faults, found.remove_faults, found.say_faults) == want {
        return Ok(());
    }
    Err(Fail::new(format_args!("counted was {found:?}")))
}

// The children that were reaped: each attempt and how it ended.
fn reaped(alloc: Global, played: &Played, want: &str) -> Result<(), Fail> {
    let mut out = String::new(alloc);
    for child in played.children.reaped() {
        let end = match child.exit {
            Exit::Signal => format!(in alloc; " {} signal", child.attempt)?,
            Exit::Code(code) => format!(in alloc; " {} {code}", child.attempt)?,
        };
        out.push_str(&end)?;
    }
    if out.trim() == want {
        return Ok(());
    }
    Err(Fail::new(format_args!("reaped were{out}")))
}

/// What a text says is so behind the last call.
pub fn check(alloc: Global, played: &mut Played, test: &Test) -> Result<(), Fail> {
    match test {
        Test::Holds(file, pieces) => holds(alloc, &mut played.ground, *file, pieces),
        Test::HoldsAt(file, at, pieces) => {
            holds_at(alloc, &mut played.ground, *file, *at, pieces)
        }
        Test::Length(file, want) => length(&mut played.ground, *file, *want),
        Test::Digest(file, want) => digest(alloc, &mut played.ground, *file, want),
        Test::Absent(files) => absent(&mut played.ground, files),
        Test::Held(files) => held(&mut played.ground, files),
        Test::Reads(file, want) => reads(&played.asked, *file, *want),
        Test::Faults(files, removals, says) => faults(played, (*files, *removals, *says)),
        Test::Reaped(want) => reaped(alloc, played, want),
    }
}

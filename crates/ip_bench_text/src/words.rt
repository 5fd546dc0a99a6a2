// Directives, read.
use crate::bytes::{byte_of, bytes_in, file_of, pieces_in};
use crate::call::Change;
use crate::directive::{Directive, Kind, Test, Trial, Whose};
use crate::names::number;
use crate::scene::{Act, Early, Left};
use ip_base::Exit;
use ip_ground::FileName;
use ip_spawn::Plan;
use std::alloc::Global;
use std::test::Fail;

fn bad(words: &str) -> Fail {
    Fail::new(format_args!("no directive: {words:?}"))
}

// What stands in front of the first space, and behind it.
fn parted(words: &str) -> (&str, &str) {
    words.split_once(' ').unwrap_or((words, ""))
}

fn numbers_in(alloc: Global, words: &str) -> Result<Vec<u64>, Fail> {
    let mut out = Vec::new(alloc);
    for word in words.split_whitespace() {
        out.push(number(word)?)?;
    }
    Ok(out)
}

fn files_in(alloc: Global, words: &str) -> Result<Vec<FileName>, Fail> {
    let mut out = Vec::new(alloc);
    for word in words.split_whitespace() {
        out.push(file_of(word)?)?;
    }
    Ok(out)
}

fn text_of(alloc: Global, words: &str) -> Result<String, Fail> {
    Ok(String::from_str(alloc, words)?)
}

fn let_in(alloc: Global, rest: &str) -> Result<Directive, Fail> {
    let (word, text) = parted(rest);
    Ok(Directive::Let(text_of(alloc, word)?, text_of(alloc, text)?))
}

fn fails_in(alloc: Global, rest: &str) -> Result<Directive, Fail> {
    let (whose, numbers) = parted(rest);
    let whose = match whose {
        "ground" => Whose::Ground,
        "source" => Whose::Source,
        "spawner" => Whose::Spawner,
        _ => return Err(bad(rest)),
    };
    Ok(Directive::Fails(whose, numbers_in(alloc, numbers)?))
}

fn exit_of(word: &str) -> Result<Exit, Fail> {
    if word == "signal" {
        return Ok(Exit::Signal);
    }
    match word.parse::<i32>() {
        Ok(code) => Ok(Exit::Code(code)),
        Err(_) => Err(bad(word)),
    }
}

fn child_in(rest: &str) -> Result<Directive, Fail> {
    let mut plan = Plan {
        looks: 0,
        exit: Exit::Code(0),
    };
    let mut words = rest.split_whitespace();
    for _ in 0..2 {
        match (words.next(), words.next()) {
            (Some("looks"), Some("ever")) => plan.looks = u64::MAX,
            (Some("looks"), Some(count)) => plan.looks = number(count)?,
            (Some("exit"), Some(code)) => plan.exit = exit_of(code)?,
            (None, _) => break,
            _ => return Err(bad(rest)),
        }
    }
    Ok(Directive::Child(plan))
}

// A place and a byte.
fn place_in(rest: &str) -> Result<(u64, u8), Fail> {
    let (at, byte) = parted(rest);
    Ok((number(at)?, byte_of(byte)?))
}

fn left_in(alloc: Global, words: &str) -> Result<Left, Fail> {
    let (how, rest) = parted(words);
    match how {
        "whole" => Ok(Left::Whole),
        "absent" => Ok(Left::Absent),
        "longer" => Ok(Left::Longer),
        "cut" => Ok(Left::Cut(number(rest)?)),
        "turned" => Ok(Left::Turned(number(rest)?)),
        "behind" => Ok(Left::Behind(pieces_in(alloc, rest)?)),
        "is" => Ok(Left::Bytes(pieces_in(alloc, rest)?)),
        "byte" => {
            let (at, byte) = place_in(rest)?;
            Ok(Left::Byte(at, byte))
        }
        "more" => {
            let (at, byte) = place_in(rest)?;
            Ok(Left::More(at, byte))
        }
        _ => Err(bad(words)),
    }
}

fn leaves_in(alloc: Global, rest: &str) -> Result<Directive, Fail> {
    let (kind, words) = parted(rest);
    let kind = match kind {
        "mapping" => Kind::Mapping,
        "prefix" => Kind::Prefix,
        "done" => Kind::Done,
        _ => return Err(bad(rest)),
    };
    Ok(Directive::Leaves(kind, left_in(alloc, words)?))
}

fn acts_in(alloc: Global, rest: &str) -> Result<Directive, Fail> {
    let (before, rest) = parted(rest);
    let (file, words) = parted(rest);
    let bytes = match words {
        "absent" => None,
        _ => Some(bytes_in(alloc, words)?),
    };
    Ok(Directive::Acts(Early {
        before: number(before)?,
        file: file_of(file)?,
        bytes,
    }))
}

fn changed_in(rest: &str) -> Result<Directive, Fail> {
    let (file, words) = parted(rest);
    let (at, words) = parted(words);
    let (byte, behind) = parted(words);
    Ok(Directive::Changed(Change {
        file: file_of(file)?,
        at: number(at)?,
        byte: byte_of(byte)?,
        behind: number(behind)?,
    }))
}

fn reopen_in(rest: &str) -> Result<Act, Fail> {
    match rest {
        "kept" => Ok(Act::Reopen(true)),
        "synced" => Ok(Act::Reopen(false)),
        _ => Err(bad(rest)),
    }
}

fn byte_in(rest: &str) -> Result<Act, Fail> {
    let (file, words) = parted(rest);
    let (at, byte) = place_in(words)?;
    Ok(Act::Byte(file_of(file)?, at, byte))
}

fn put_in(alloc: Global, rest: &str) -> Result<Act, Fail> {
    let (file, words) = parted(rest);
    Ok(Act::Put(file_of(file)?, pieces_in(alloc, words)?))
}

// A file and a number.
fn file_and_number(rest: &str) -> Result<(FileName, u64), Fail> {
    let (file, words) = parted(rest);
    Ok((file_of(file)?, number(words)?))
}

fn holds_at_in(alloc: Global, rest: &str) -> Result<Test, Fail> {
    let (file, words) = parted(rest);
    let (at, words) = parted(words);
    Ok(Test::HoldsAt(file_of(file)?, number(at)?, pieces_in(alloc, words)?))
}

fn faults_in(rest: &str) -> Result<Test, Fail> {
    let (files, words) = parted(rest);
    let (removals, says) = parted(words);
    Ok(Test::Faults(number(files)?, number(removals)?, number(says)?))
}

// Which trial this names, and how many there are.
fn trial_in(rest: &str) -> Option<(Trial, &str)> {
    if let Some(counts) = rest.strip_prefix("call fails ") {
        return Some((Trial::CallFails, counts));
    }
    if let Some(counts) = rest.strip_prefix("read fails ") {
        return Some((Trial::ReadFails, counts));
    }
    if let Some(counts) = rest.strip_prefix("call stops kept ") {
        return Some((Trial::Stops(true), counts));
    }
    let counts = rest.strip_prefix("call stops synced ")?;
    Some((Trial::Stops(false), counts))
}

fn each_in(rest: &str) -> Result<Directive, Fail> {
    let Some((trial, counts)) = trial_in(rest) else {
        return Err(bad(rest));
    };
    let (ended, through) = parted(counts);
    let through = if through.is_empty() {
        0
    } else {
        number(through)?
    };
    Ok(Directive::Each(trial, number(ended)?, through))
}

// What is planned for a store.
fn planned(alloc: Global, word: &str, rest: &str) -> Option<Result<Directive, Fail>> {
    match word {
        "bare" => Some(Ok(Directive::Bare)),
        "chunk" => Some(text_of(alloc, rest).map(Directive::Chunk)),
        "fails" => Some(fails_in(alloc, rest)),
        "stops" => Some(number(rest).map(Directive::Stops)),
        "pieces" => Some(number(rest).map(Directive::Pieces)),
        "rules" => Some(text_of(alloc, rest).map(Directive::Rules)),
        "child" => Some(child_in(rest)),
        "leaves" => Some(leaves_in(alloc, rest)),
        "acts" => Some(acts_in(alloc, rest)),
        _ => None,
    }
}

// What others do to the files.
fn done(alloc: Global, word: &str, rest: &str) -> Option<Result<Act, Fail>> {
    match word {
        "reopen" => Some(reopen_in(rest)),
        "byte" => Some(byte_in(rest)),
        "remove" => Some(file_of(rest).map(Act::Remove)),
        "file" => Some(put_in(alloc, rest)),
        "cut" => Some(file_and_number(rest).map(|found| Act::Cut(found.0, found.1))),
        _ => None,
    }
}

fn holds_in(alloc: Global, rest: &str) -> Result<Test, Fail> {
    let (file, words) = parted(rest);
    Ok(Test::Holds(file_of(file)?, pieces_in(alloc, words)?))
}

fn digest_in(alloc: Global, rest: &str) -> Result<Test, Fail> {
    let (file, digits) = parted(rest);
    Ok(Test::Digest(file_of(file)?, bytes_in(alloc, digits)?))
}

// What has to be so.
fn tested(alloc: Global, word: &str, rest: &str) -> Option<Result<Test, Fail>> {
    match word {
        "holds" => Some(holds_in(alloc, rest)),
        "holds-at" => Some(holds_at_in(alloc, rest)),
        "length" => Some(file_and_number(rest).map(|found| Test::Length(found.0, found.1))),
        "reads" => Some(file_and_number(rest).map(|found| Test::Reads(found.0, found.1))),
        "digest" => Some(digest_in(alloc, rest)),
        "absent" => Some(files_in(alloc, rest).map(Test::Absent)),
        "held" => Some(files_in(alloc, rest).map(Test::Held)),
        "faults" => Some(faults_in(rest)),
        "reaped" => Some(text_of(alloc, rest).map(Test::Reaped)),
        _ => None,
    }
}

// What is said of calls and of the text itself.
fn said(alloc: Global, word: &str, rest: &str) -> Result<Directive, Fail> {
    match word {
        "let" => let_in(alloc, rest),
        "scene" => Ok(Directive::Scene),
        "asked" => Ok(Directive::Asked),
        "run" => Ok(Directive::Run),
        "stand" => text_of(alloc, rest).map(Directive::Stand),
        "stands" => text_of(alloc, rest).map(Directive::Stands),
        "changed" => changed_in(rest),
        "raw" => bytes_in(alloc, rest).map(Directive::Raw),
        "call" => text_of(alloc, rest).map(Directive::Call),
        "ends" => text_of(alloc, rest).map(Directive::Ends),
        "serve" => Ok(Directive::Serve),
        "each" => each_in(rest),
        _ => Err(bad(word)),
    }
}

/// What a line behind `% ` says.
pub fn directive_of(alloc: Global, words: &str) -> Result<Directive, Fail> {
    let (word, rest) = parted(words);
    if let Some(found) = planned(alloc, word, rest) {
        return found;
    }
    if let Some(found) = done(alloc, word, rest) {
        return found.map(Directive::Done);
    }
    if let Some(found) = tested(alloc, word, rest) {
        return found.map(Directive::Test);
    }
    said(alloc, word, rest)
}

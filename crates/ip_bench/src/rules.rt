// Rules of merges that texts name.
ghost use Rattle.std.specs.Prelude.{⊤};

use ip_app::ProgramRules;
use ip_base::{Blob, Memory, Step};
use ip_merge::{Counter, Decides, LineSet, Merged, Merger, Same, Seq};
use std::alloc::Global;

/// Rules of merges by their name in a text.
#[derive(Clone, Copy, Debug)]
pub enum TextRules {
    /// `program`: the program's own.
    Program,
    /// `callers`: those of a caller, for paths of one to five steps, one below another.
    Callers,
}

// What becomes of a path that both sides changed.
#[derive(Clone, Copy, Debug)]
enum How {
    /// It has no contents.
    Gone,
    /// It has so many bytes 0.
    Zeros(usize),
    /// It has the left bytes and behind them the right ones, and conflicts where a side has none.
    Joined,
    /// What both sides add to the number of the ancestor.
    Sum,
    /// The lines of both sides.
    Lines,
    /// The sum, or the lines where a value is no number.
    SumOrLines,
    /// It conflicts where the sides differ.
    Same,
}

// Each path with the rule for it and all under it that no line above takes. Elsewhere sides that differ conflict.
const CALLERS: &[(&str, How)] = &[
    ("gone", How::Gone),
    ("most", How::Zeros(1048576)),
    ("more", How::Zeros(1048577)),
    ("joined", How::Joined),
    ("deep/er/joined", How::Joined),
    ("n/set/a/b/same", How::Same),
    ("n/set/a/b", How::Joined),
    ("n/set", How::Lines),
    ("n", How::Sum),
    ("q/x/y", How::Sum),
    ("q", How::SumOrLines),
];

/// The rules of a name.
pub fn rules_of(word: &str) -> Option<TextRules> {
    match word {
        "program" => Some(TextRules::Program),
        "callers" => Some(TextRules::Callers),
        _ => None,
    }
}

// Whether a path is this one or lies under it.
fn is_under(path: &[Step], at: &str) -> bool {
    let mut steps = path.iter();
    for name in at.split('/') {
        match steps.next() {
            Some(step) if step.bytes() == name.as_bytes() => (),
            _ => return false,
        }
    }
    true
}

fn how_of(path: &[Step]) -> How {
    for (at, how) in CALLERS {
        if is_under(path, at) {
            return *how;
        }
    }
    How::Same
}

// The left bytes and the right ones behind them.
fn joined(alloc: Global, left: Option<&[u8]>, right: Option<&[u8]>) -> Result<Merged, Memory> {
    let (Some(left), Some(right)) = (left, right) else {
        return Ok(Merged::Conflict);
    };
    let mut all = Vec::from_slice(alloc, left)?;
    all.extend_from_slice(right)?;
    Ok(Merged::Keep(Some(Blob::of(all))))
}

// So many bytes 0.
fn zeros(alloc: Global, count: usize) -> Result<Merged, Memory> {
    Ok(Merged::Keep(Some(Blob::of(vec![in alloc; 0; count]?))))
}

// What a caller's rules answer.
fn callers(
    alloc: Global,
    path: &[Step],
    base: Option<&[u8]>,
    left: Option<&[u8]>,
    right: Option<&[u8]>,
) -> Result<Merged, Memory> {
    match how_of(path) {
        How::Gone => Ok(Merged::Keep(None)),
        How::Zeros(count) => zeros(alloc, count),
        How::Joined => joined(alloc, left, right),
        How::Sum => Counter.merge(alloc, base, left, right),
        How::Lines => LineSet.merge(alloc, base, left, right),
        How::SumOrLines => {
            let either = Seq {
                first: Counter,
                second: LineSet,
            };
            either.merge(alloc, base, left, right)
        }
        How::Same => Same.merge(alloc, base, left, right),
    }
}

impl Decides for TextRules {
    ghost rule = { λ rules path base left right merged. ⊤ };

    fn answer(
        &self,
        alloc: Global,
        path: &[Step],
        base: Option<&[u8]>,
        left: Option<&[u8]>,
        right: Option<&[u8]>,
    ) -> Result<Merged, Memory> {
        match self {
            TextRules::Program => ProgramRules.answer(alloc, path, base, left, right),
            TextRules::Callers => callers(alloc, path, base, left, right),
        }
    }
}

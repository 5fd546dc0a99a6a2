// The rule of sets of lines.
ghost use Rattle.std.specs.Prelude.{◌≡◌, ◌<◌, [], ◌∷◌, ◌++◌, ◌&&◌, ◌||◌, not, length, IfOk, OnOk};
ghost use Rattle.ip_spec.specs.Path.{line_feed};
ghost use Rattle.ip_spec.specs.Merge.{line_set_means, line_set_merger, merged_lines, lines_of, ancestor_lines, has_line};
ghost use Rattle.std.specs.Option.{option_copied};
ghost use Rattle.ip_merge.specs.Answering.{Answers};
ghost use Rattle.ip_merge.specs.Lines.{insert_lines, texts};

use crate::Merger;
use ip_base::{Blob, Memory};
use ip_spec::merge::Merged;
use memchr::memchr;
use std::alloc::Global;
use std::collections::BTreeSet;

/// Values are sets of lines: what the sides have together, and what one of them adds to the ancestor, ascending by bytes,
/// each with its line feed. It conflicts where a side is absent.
#[derive(Clone, Copy, Debug)]
pub struct LineSet;

impl Merger for LineSet {
    ghost means = { λ line_set. line_set_means };

    #[tactic(auto, unfolding(ip_spec::specs::Merge::line_set_merger))]
    fn merge(
        &self,
        alloc: Global,
        base: Option<&[u8]>,
        left: Option<&[u8]>,
        right: Option<&[u8]>,
    ) -> Result<Merged, Memory>
        ensures { Answers (line_set_merger (option_copied base.entry) (option_copied left.entry) (option_copied right.entry)) result }
    {
        match (left, right) {
            (Some(left), Some(right)) => {
                match merged_lines(alloc, lines_or_none(base), left, right) {
                    Ok(bytes) => Ok(Merged::Keep(Some(Blob::of(bytes)))),
                    Err(memory) => Err(memory),
                }
            }
            _ => Ok(Merged::Conflict),
        }
    }
}

fn lines_or_none(base: Option<&[u8]>) -> &[u8]
    ensures { lines_of result.now ≡ ancestor_lines (option_copied base.entry) }
{
    match base {
        Some(bytes) => bytes,
        None => &[],
    }
}

fn merged_lines(alloc: Global, base: &[u8], left: &[u8], right: &[u8]) -> Result<Vec<u8>, Memory>
    ensures { IfOk result (λ bytes. bytes.items ≡ merged_lines (lines_of base.now) (lines_of left.now) (lines_of right.now)) }
{
    let base = lines_with(BTreeSet::new(alloc), base)?;
    let sides = lines_with(lines_with(BTreeSet::new(alloc), left)?, right)?;
    let left = lines_with(BTreeSet::new(alloc), left)?;
    let right = lines_with(BTreeSet::new(alloc), right)?;
    let mut out = Vec::new(alloc);
    for line in sides {
        if is_kept(&base, &left, &right, line) {
            put_line(&mut out, line)?;
        }
    }
    Ok(out)
}

fn is_kept(
    base: &BTreeSet<&[u8]>,
    left: &BTreeSet<&[u8]>,
    right: &BTreeSet<&[u8]>,
    line: &[u8],
) -> bool
    ensures { result ≡ (has_line (texts left.now.keys) line.now && has_line (texts right.now.keys) line.now || not (has_line (texts base.now.keys) line.now)) }
{
    has(left, line) && has(right, line) || !has(base, line)
}

fn has(lines: &BTreeSet<&[u8]>, line: &[u8]) -> bool
    ensures { result ≡ has_line (texts lines.now.keys) line.now }
{
    lines.contains(line)
}

fn put_line(out: &mut Vec<u8>, line: &[u8]) -> Result<(), Memory>
    ensures { OnOk result (out.new.items ≡ out.old.items ++ (line.now ++ line_feed ∷ [])) }
{
    out.extend_from_slice(line)?;
    out.push(b'\n')?;
    Ok(())
}

// The set with the lines of these bytes too.
fn lines_with<'a>(lines: BTreeSet<&'a [u8]>, bytes: &'a [u8]) -> Result<BTreeSet<&'a [u8]>, Memory>
    ensures { IfOk result (λ more. texts more.keys ≡ insert_lines (texts lines.entry.keys) (lines_of bytes.now)) }
{
    let mut lines = lines;
    let mut rest = bytes;
    while !rest.is_empty() {
        let (line, after) = first_line(rest);
        lines.insert(line)?;
        rest = after;
    }
    Ok(lines)
}

// The first line and what follows it.
fn first_line(bytes: &[u8]) -> (&[u8], &[u8])
    requires { 0 < length bytes.now }
    ensures cut { lines_of bytes.now ≡ result.0.now ∷ lines_of result.1.now }
    ensures shorter { length result.1.now < length bytes.now }
{
    match memchr(b'\n', bytes) {
        Some(at) => (&bytes[..at], &bytes[at + 1..]),
        None => (bytes, &bytes[..0]),
    }
}

// The rule of counters.
ghost use Rattle.std.specs.Prelude.{◌≡◌, Some, IfSome, IsTrue, ◌↔◌, ℤ, ◌+ℤ◌, ◌-ℤ◌};
ghost use Rattle.std.specs.Option.{option_copied, option_and_then};
ghost use Rattle.std.specs.Fmt.{signed_decimal};
ghost use Rattle.ip_spec.specs.Merge.{counter_means, counter_merger, counter_value, ancestor_value, counter_answer, sum_answer, is_i64};
ghost use Rattle.ip_merge.specs.Answering.{Answers};

use crate::Merger;
use ip_base::{Blob, Memory};
use ip_spec::merge::Merged;
use itoa::Buffer;
use std::alloc::Global;
use std::str::from_utf8;

/// Values are decimal numbers of 64 bits with a sign: what both sides add to the ancestor, an absent one counting 0.
/// It conflicts where a side is absent, a present value is no such number, or the sum is none.
#[derive(Clone, Copy, Debug)]
pub struct Counter;

impl Merger for Counter {
    ghost means = { λ counter. counter_means };

    fn merge(
        &self,
        alloc: Global,
        base: Option<&[u8]>,
        left: Option<&[u8]>,
        right: Option<&[u8]>,
    ) -> Result<Merged, Memory>
        ensures { Answers (counter_merger (option_copied base.entry) (option_copied left.entry) (option_copied right.entry)) result }
    {
        answered(
            alloc,
            ancestor_number(base),
            side_number(left),
            side_number(right),
        )
    }
}

fn answered(
    alloc: Global,
    base: Option<i64>,
    left: Option<i64>,
    right: Option<i64>,
) -> Result<Merged, Memory>
    requires base { IfSome base (λ n. IsTrue (is_i64 n)) }
    requires left { IfSome left (λ n. IsTrue (is_i64 n)) }
    requires right { IfSome right (λ n. IsTrue (is_i64 n)) }
    ensures { Answers (counter_answer base left right) result }
{
    match (base, left, right) {
        (Some(o), Some(a), Some(b)) => text_of_sum(alloc, sum(o, a, b)),
        _ => Ok(Merged::Conflict),
    }
}

// No sum of three numbers of 64 bits leaves 128.
fn sum(base: i64, left: i64, right: i64) -> i128
    ensures { result ≡ left +ℤ right -ℤ base }
{
    i128::from(left) + i128::from(right) - i128::from(base)
}

fn side_number(side: Option<&[u8]>) -> Option<i64>
    ensures { result ≡ option_and_then counter_value (option_copied side.entry) }
{
    match side {
        Some(bytes) => number_of(bytes),
        None => None,
    }
}

fn ancestor_number(base: Option<&[u8]>) -> Option<i64>
    ensures { result ≡ ancestor_value (option_copied base.entry) }
{
    match base {
        Some(bytes) => number_of(bytes),
        None => Some(0),
    }
}

// std reads a plus, leading zeros and `-0` too, so the text has to be the one that the number is written as.
fn number_of(bytes: &[u8]) -> Option<i64>
    ensures { result ≡ counter_value bytes.now }
{
    let number = match from_utf8(bytes) {
        Ok(text) => parsed(text)?,
        Err(_) => return None,
    };
    if is_text_of(bytes, number) {
        Some(number)
    } else {
        None
    }
}

fn parsed(text: &str) -> Option<i64>
    ensures { (z : ℤ) → IsTrue (is_i64 z) → text.now ≡ signed_decimal z → result ≡ Some z }
{
    match text.parse::<i64>() {
        Ok(number) => Some(number),
        Err(_) => None,
    }
}

fn is_text_of(bytes: &[u8], number: i64) -> bool
    ensures { IsTrue result ↔ (bytes.now ≡ signed_decimal number) }
{
    let mut buffer = Buffer::new();
    buffer.format(number).as_bytes() == bytes
}

fn text_of_sum(alloc: Global, sum: i128) -> Result<Merged, Memory>
    ensures { Answers (sum_answer sum) result }
{
    let Ok(number) = i64::try_from(sum) else {
        return Ok(Merged::Conflict);
    };
    let mut buffer = Buffer::new();
    match Blob::copy_of(alloc, buffer.format(number).as_bytes()) {
        Ok(text) => Ok(Merged::Keep(Some(text))),
        Err(memory) => Err(memory),
    }
}

// The fields of a record's body, one behind the other.
ghost use Rattle.std.specs.Prelude.{◌≡◌, ◌≤◌, ◌<◌, ◌&&◌, ℕ, Bool, true, length, IfOk, IfErr, Option, nat_lt, nat_le, ◌||◌, ◌==◌, Ok, Err};
ghost use Rattle.std.specs.Option.{option_copied};
ghost use Rattle.std.specs.Int.{w8, w16, w32, w64};
ghost use Rattle.ip_base.specs.declared.limit.TheConstants.{MESSAGE_MAX, BRANCHES_MAX};
ghost use Rattle.ip_spec.specs.Reading.{bytes_where, number_where, any, hash_field, is_step, is_name, is_author, is_message, begins_with_at, is_behind, text_field};
ghost use Rattle.ip_object.specs.Body.{left_in, IsFault, Takes, IsInside, is_text};

use ip_base::limit::{BRANCHES_MAX, MESSAGE_MAX};
use ip_base::{Blob, Cursor, Hash, Step, is_step_byte, is_word_byte};
use ip_spec::kind;
use ip_spec::record::RecordFault;
use std::alloc::Global;

/// What is left of a record's body, and the record's length.
#[derive(Drop)]
pub struct Body<'a> {
    pub left: Cursor<'a>,
    pub end: usize,
}

/// What the bytes of a text are.
#[derive(Clone, Copy, Debug, PartialEq, Eq)]
pub enum Text {
    Step,
    Name,
    Author,
    Message,
}

impl Body<'_> {
    /// The place of the next field in the record.
    pub fn at(&self) -> u64
        requires { IsInside self.now }
        ensures { result ≡ (left_in self.now).0 }
    {
        (self.end - self.left.left()) as u64
    }
}

/// The next bytes.
pub fn take<'a>(body: &mut Body<'a>, n: usize) -> Result<&'a [u8], RecordFault>
    requires inside { IsInside body.old }
    ensures inside { IsInside body.new }
    ensures size { IfOk result (λ bytes. length bytes.now ≡ n) }
    ensures ok { IfOk result (λ bytes. bytes_where n (λ b. true) (left_in body.old) ≡ Ok (bytes.now, left_in body.new)) }
    ensures err { IfErr result (λ fault. IsFault fault (bytes_where n (λ b. true) (left_in body.old))) }
{
    let at = body.at();
    match body.left.take_bytes(n) {
        Some(bytes) => Ok(bytes),
        None => Err(RecordFault::Form(at)),
    }
}

/// A number of one byte that is not 0.
pub fn take_some_u8(body: &mut Body<'_>) -> Result<u8, RecordFault>
    requires inside { IsInside body.old }
    ensures inside { IsInside body.new }
    ensures takes { Takes (number_where w8 (λ n. nat_lt 0 n) (left_in body.old)) result (left_in body.new) }
{
    let at = body.at();
    match body.left.take_u8() {
        Some(n) if n > 0 => Ok(n),
        _ => Err(RecordFault::Form(at)),
    }
}

/// An entry's kind: contents or a directory.
pub fn take_kind(body: &mut Body<'_>) -> Result<u8, RecordFault>
    requires inside { IsInside body.old }
    ensures inside { IsInside body.new }
    ensures takes { Takes (number_where w8 (λ n. n == 1 || n == 2) (left_in body.old)) result (left_in body.new) }
{
    let at = body.at();
    match body.left.take_u8() {
        Some(n) if n == kind::CONTENTS || n == kind::DIRECTORY => Ok(n),
        _ => Err(RecordFault::Form(at)),
    }
}

/// A number of one byte, at most this one.
pub fn take_up_to(body: &mut Body<'_>, most: u8) -> Result<u8, RecordFault>
    requires inside { IsInside body.old }
    ensures inside { IsInside body.new }
    ensures takes { Takes (number_where w8 (λ n. nat_le n most) (left_in body.old)) result (left_in body.new) }
{
    let at = body.at();
    match body.left.take_u8() {
        Some(n) if n <= most => Ok(n),
        _ => Err(RecordFault::Form(at)),
    }
}

/// How many rows a table has.
pub fn take_table_length(body: &mut Body<'_>) -> Result<u16, RecordFault>
    requires inside { IsInside body.old }
    ensures inside { IsInside body.new }
    ensures takes { Takes (number_where w16 (λ n. nat_le n BRANCHES_MAX) (left_in body.old)) result (left_in body.new) }
{
    let at = body.at();
    match body.left.take_u16() {
        Some(n) if n <= BRANCHES_MAX as u16 => Ok(n),
        _ => Err(RecordFault::Form(at)),
    }
}

/// How long a message is.
pub fn take_message_length(body: &mut Body<'_>) -> Result<u16, RecordFault>
    requires inside { IsInside body.old }
    ensures inside { IsInside body.new }
    ensures takes { Takes (number_where w16 (λ n. nat_lt 0 n && nat_le n MESSAGE_MAX) (left_in body.old)) result (left_in body.new) }
{
    let at = body.at();
    match body.left.take_u16() {
        Some(n) if n > 0 && n <= MESSAGE_MAX as u16 => Ok(n),
        _ => Err(RecordFault::Form(at)),
    }
}

/// A number of four bytes.
pub fn take_u32(body: &mut Body<'_>) -> Result<u32, RecordFault>
    requires inside { IsInside body.old }
    ensures inside { IsInside body.new }
    ensures takes { Takes (number_where w32 any (left_in body.old)) result (left_in body.new) }
{
    let at = body.at();
    match body.left.take_u32() {
        Some(n) => Ok(n),
        None => Err(RecordFault::Form(at)),
    }
}

/// A number of four bytes that is not 0.
pub fn take_some_u32(body: &mut Body<'_>) -> Result<u32, RecordFault>
    requires inside { IsInside body.old }
    ensures inside { IsInside body.new }
    ensures takes { Takes (number_where w32 (λ n. nat_lt 0 n) (left_in body.old)) result (left_in body.new) }
{
    let at = body.at();
    match body.left.take_u32() {
        Some(n) if n > 0 => Ok(n),
        _ => Err(RecordFault::Form(at)),
    }
}

/// A number of eight bytes.
pub fn take_u64(body: &mut Body<'_>) -> Result<u64, RecordFault>
    requires inside { IsInside body.old }
    ensures inside { IsInside body.new }
    ensures takes { Takes (number_where w64 any (left_in body.old)) result (left_in body.new) }
{
    let at = body.at();
    match body.left.take_u64() {
        Some(n) => Ok(n),
        None => Err(RecordFault::Form(at)),
    }
}

/// A name of 32 bytes.
pub fn take_hash(body: &mut Body<'_>) -> Result<Hash, RecordFault>
    requires inside { IsInside body.old }
    ensures inside { IsInside body.new }
    ensures takes { Takes (hash_field (left_in body.old)) result (left_in body.new) }
{
    let bytes = take(body, 32)?;
    let mut hash = [0; 32];
    hash.copy_from_slice(bytes);
    Ok(Hash(hash))
}

fn are_step_bytes(bytes: &[u8]) -> bool
    ensures { result ≡ is_step bytes.now }
{
    for b in bytes {
        if !is_step_byte(*b) {
            return false;
        }
    }
    true
}

fn are_word_bytes(bytes: &[u8]) -> bool
    ensures { result ≡ is_author bytes.now }
{
    for b in bytes {
        if !is_word_byte(*b) {
            return false;
        }
    }
    true
}

fn are_message_bytes(bytes: &[u8]) -> bool
    ensures { result ≡ is_message bytes.now }
{
    for b in bytes {
        if *b == b'\n' || *b == 0 {
            return false;
        }
    }
    true
}

fn begins_with_at(bytes: &[u8]) -> bool
    ensures { result ≡ begins_with_at bytes.now }
{
    matches!(bytes, [b'@', ..])
}

// Whether bytes may be a text of a kind.
fn is_text(text: Text, bytes: &[u8]) -> bool
    ensures { result ≡ is_text text bytes.now }
{
    match text {
        Text::Step => are_step_bytes(bytes),
        Text::Name => are_word_bytes(bytes) && !begins_with_at(bytes),
        Text::Author => are_word_bytes(bytes),
        Text::Message => are_message_bytes(bytes),
    }
}

// Whether the bytes stand behind those before.
fn is_behind(before: Option<&[u8]>, bytes: &[u8]) -> bool
    ensures { result ≡ is_behind (option_copied before.entry) bytes.now }
{
    match before {
        None => true,
        Some(before) => before.cmp(bytes).is_lt(),
    }
}

/// So many bytes, which are a text of a kind and stand behind those before.
pub fn take_text<'a>(
    body: &mut Body<'a>,
    text: Text,
    before: Option<&[u8]>,
    n: usize,
) -> Result<&'a [u8], RecordFault>
    requires inside { IsInside body.old }
    ensures inside { IsInside body.new }
    ensures ok { IfOk result (λ bytes. bytes_where n (λ b. is_text text b && is_behind (option_copied before.entry) b) (left_in body.old) ≡ Ok (bytes.now, left_in body.new)) }
    ensures err { IfErr result (λ fault. IsFault fault (bytes_where n (λ b. is_text text b && is_behind (option_copied before.entry) b) (left_in body.old))) }
{
    let at = body.at();
    let bytes = take(body, n)?;
    if is_text(text, bytes) && is_behind(before, bytes) {
        Ok(bytes)
    } else {
        Err(RecordFault::Form(at))
    }
}

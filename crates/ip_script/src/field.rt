// The words behind the first one of a line.
ghost use Rattle.std.specs.Prelude.{◌≡◌, ◌≤◌, length};
ghost use Rattle.std.specs.List.{prefix_len};
ghost use Rattle.hex.specs.Hex.{is_hex_digit};
ghost use Rattle.ip_script.specs.Fields.{is_message_byte, is_word_byte, is_step_byte, with_byte, path_length, ends_in_step, field_length, is_whole_field};

use crate::date::date_at;
use ip_base::limit::{AUTHOR_MAX, MESSAGE_MAX, NAME_MAX, STEP_BYTES_MAX, STEPS_MAX};

/// What a word may say. A path has 1 to 64 steps, and a place is a path or `/`, the root. A reference is a name, or `@` and the 64 digits
/// of a commit's name. The bytes of a message are the rest of its line, so nothing stands behind it.
#[derive(Clone, Copy, Debug, PartialEq, Eq)]
pub enum Field {
    Path,
    Place,
    Hex,
    Name,
    Reference,
    Date,
    Author,
    Message,
}

fn is_message_byte(byte: u8) -> bool
    ensures { result ≡ is_message_byte byte }
{
    byte != b'\n' && byte != 0
}

fn is_word_byte(byte: u8) -> bool
    ensures { result ≡ is_word_byte byte }
{
    is_message_byte(byte) && byte != b' '
}

fn is_step_byte(byte: u8) -> bool
    ensures { result ≡ is_step_byte byte }
{
    is_word_byte(byte) && byte != b'/'
}

fn is_hex_digit(byte: u8) -> bool
    ensures { result ≡ is_hex_digit byte }
{
    matches!(byte, b'A'..=b'F' | b'a'..=b'f' | b'0'..=b'9')
}

fn message_length(text: &[u8]) -> usize
    ensures value { result ≡ prefix_len is_message_byte text.now }
    ensures bound { result ≤ length text.now }
{
    text.iter()
        .take_while(|byte| is_message_byte(**byte))
        .count()
}

fn word_length(text: &[u8]) -> usize
    ensures value { result ≡ prefix_len is_word_byte text.now }
    ensures bound { result ≤ length text.now }
{
    text.iter().take_while(|byte| is_word_byte(**byte)).count()
}

// Where a path stands open: how many of its steps are whole, and how many bytes the one behind them has.
#[derive(Clone, Copy, Debug, PartialEq, Eq)]
struct Open {
    steps: usize,
    size: usize,
}

// The path by one more byte, where it goes on with it.
fn with_byte(path: Open, byte: u8) -> Option<Open>
    ensures { result ≡ with_byte path byte }
{
    if byte == b'/' && path.size > 0 && path.steps < STEPS_MAX - 1 {
        return Some(Open {
            steps: path.steps + 1,
            size: 0,
        });
    }
    if is_step_byte(byte) && path.size < STEP_BYTES_MAX {
        return Some(Open {
            steps: path.steps,
            size: path.size + 1,
        });
    }
    None
}

fn path_length(text: &[u8]) -> usize
    ensures value { result ≡ path_length text.now }
    ensures bound { result ≤ length text.now }
{
    let mut path = Open { steps: 0, size: 0 };
    for (at, byte) in text.iter().enumerate() {
        match with_byte(path, *byte) {
            Some(next) => path = next,
            None => return at,
        }
    }
    text.len()
}

// Whether there are so many bytes and the last of them is one of a step.
fn ends_in_step(text: &[u8], length: usize) -> bool
    ensures { result ≡ ends_in_step text.now length }
{
    length > 0 && length <= text.len() && text[length - 1] != b'/'
}

fn digits_length(text: &[u8]) -> usize
    ensures value { result ≡ prefix_len is_hex_digit text.now }
    ensures bound { result ≤ length text.now }
{
    text.iter().take_while(|byte| is_hex_digit(**byte)).count()
}

/// How many bytes from the front may be part of the field.
pub fn field_length(field: Field, text: &[u8]) -> usize
    ensures value { result ≡ field_length field text.now }
    ensures bound { result ≤ length text.now }
{
    match field {
        Field::Path => path_length(text),
        Field::Place => match text {
            [] => 0,
            [b'/', ..] => 1,
            _ => path_length(text),
        },
        Field::Hex => match text {
            [] => 0,
            [b'-', ..] => 1,
            _ => digits_length(text),
        },
        Field::Name => match text {
            [] | [b'@', ..] => 0,
            _ => word_length(text).min(NAME_MAX),
        },
        Field::Reference => match text {
            [b'@', digits @ ..] => 1 + digits_length(digits).min(64),
            _ => word_length(text).min(NAME_MAX),
        },
        Field::Date => date_at(text).length,
        Field::Author => word_length(text).min(AUTHOR_MAX),
        Field::Message => message_length(text).min(MESSAGE_MAX),
    }
}

/// Whether so many bytes are a whole field.
pub fn is_whole(field: Field, text: &[u8], length: usize) -> bool
    ensures { result ≡ is_whole_field field text.now length }
{
    match (field, text) {
        (Field::Path, _) => ends_in_step(text, length),
        (Field::Place, [b'/', ..]) => true,
        (Field::Place, _) => ends_in_step(text, length),
        (Field::Hex, []) => false,
        (Field::Hex, [b'-', ..]) => true,
        (Field::Hex, _) => length > 0 && length % 2 == 0,
        (Field::Reference, [b'@', ..]) => length == 65,
        _ => length > 0,
    }
}

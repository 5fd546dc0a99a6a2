// The generated load: line after line from a number, the same lines at each run.
ghost use Rattle.std.specs.Prelude.{◌≡◌, ◌+◌, ◌<◌, ◌≤◌, ◌++◌, ◌∷◌, ◌%◌, length, vec_len, codes, ◌==◌, if◌then◌else◌, IsOk, OnOk, OnErr};
ghost use Rattle.std.specs.Vec.{vec_capacity};
ghost use Rattle.std.specs.Fmt.{decimal};
ghost use Rattle.std.specs.Int.{w32, to_be_bytes};
ghost use Rattle.ip_spec.specs.Text.{hex_text};
ghost use Rattle.ip_spec.specs.Load.{drawn, word, line_of, load_line};
ghost use Rattle.ip_script.specs.Loads.{place_of};
ghost use Rattle.ip_script.specs.declared.load.TheConstants.{LOAD_LINE_MAX};

use crate::reply::{put_hex, put_number};
use ip_base::Memory;

/// The most bytes of a generated line, without its line feed: the longest merges, and has a number of 20 digits.
pub const LOAD_LINE_MAX: usize = 46;

// The next word of the generator, a linear congruential one: the upper half of its state.
fn next_word(state: &mut u64) -> u32
    ensures word { result ≡ word (drawn state.old) }
    ensures state { state.new ≡ drawn state.old }
{
    *state = state
        .wrapping_mul(6364136223846793005)
        .wrapping_add(1442695040888963407);
    (*state >> 32) as u32
}

// A path of two steps.
fn put_place(folder: u32, file: u32, line: &mut Vec<u8>) -> Result<(), Memory>
    ensures ok { OnOk result (line.new.items ≡ line.old.items ++ place_of folder file) }
    ensures room { OnErr result (vec_capacity line.old < vec_len line.old + length (place_of folder file)) }
    ensures capacity { vec_capacity line.old ≤ vec_capacity line.new }
{
    line.push(b'd')?;
    put_number((folder % 8) as u64, line)?;
    line.extend_from_slice(b"/k")?;
    put_number((file % 64) as u64, line)
}

// A command on a path, and what stands behind it.
fn put_set(folder: u32, file: u32, value: u32, line: &mut Vec<u8>) -> Result<(), Memory>
    ensures ok { OnOk result (line.new.items ≡ line.old.items ++ (codes "set " ++ place_of folder file ++ 32 ∷ hex_text (to_be_bytes w32 value))) }
    ensures room { OnErr result (vec_capacity line.old < vec_len line.old + length (codes "set " ++ place_of folder file ++ 32 ∷ hex_text (to_be_bytes w32 value))) }
    ensures capacity { vec_capacity line.old ≤ vec_capacity line.new }
{
    line.extend_from_slice(b"set ")?;
    put_place(folder, file, line)?;
    line.push(b' ')?;
    put_hex(&value.to_be_bytes(), line)
}

fn put_checkout(folder: u32, line: &mut Vec<u8>) -> Result<(), Memory>
    ensures ok { OnOk result (line.new.items ≡ line.old.items ++ (if folder % 2 == 0 then codes "checkout main" else codes "checkout side")) }
    ensures room { OnErr result (vec_capacity line.old < vec_len line.old + length (if folder % 2 == 0 then codes "checkout main" else codes "checkout side")) }
    ensures capacity { vec_capacity line.old ≤ vec_capacity line.new }
{
    if folder % 2 == 0 {
        Ok(line.extend_from_slice(b"checkout main")?)
    } else {
        Ok(line.extend_from_slice(b"checkout side")?)
    }
}

// The words of a commit or a merge, which is made by `load` at the line's number.
fn put_made(words: &[u8], number: u64, line: &mut Vec<u8>) -> Result<(), Memory>
    ensures ok { OnOk result (line.new.items ≡ line.old.items ++ (words.now ++ decimal number ++ codes " load line")) }
    ensures room { OnErr result (vec_capacity line.old < vec_len line.old + length (words.now ++ decimal number ++ codes " load line")) }
    ensures capacity { vec_capacity line.old ≤ vec_capacity line.new }
{
    line.extend_from_slice(words)?;
    put_number(number, line)?;
    Ok(line.extend_from_slice(b" load line")?)
}

// The line of four words.
fn put_line(
    kind: u32,
    folder: u32,
    file: u32,
    value: u32,
    number: u64,
    line: &mut Vec<u8>,
) -> Result<(), Memory>
    ensures ok { OnOk result (line.new.items ≡ line.old.items ++ line_of (kind % 16) folder (place_of folder file) (hex_text (to_be_bytes w32 value)) number) }
    ensures room { OnErr result (vec_capacity line.old < vec_len line.old + length (line_of (kind % 16) folder (place_of folder file) (hex_text (to_be_bytes w32 value)) number)) }
    ensures capacity { vec_capacity line.old ≤ vec_capacity line.new }
{
    match kind % 16 {
        0..=8 => put_set(folder, file, value, line),
        9 => {
            line.extend_from_slice(b"rm ")?;
            put_place(folder, file, line)
        }
        10 => {
            line.extend_from_slice(b"get ")?;
            put_place(folder, file, line)
        }
        11 => put_made(b"commit main ", number, line),
        12 => put_made(b"commit side ", number, line),
        13 => put_checkout(folder, line),
        14 => Ok(line.extend_from_slice(b"branch side main")?),
        _ => put_made(b"merge side main ", number, line),
    }
}

/// Writes line `number` of a load at the end of `line`, without a line feed, and moves the state on to that of the next
/// line; the state of line 1 is the seed. It takes no memory where `LOAD_LINE_MAX` bytes are spare.
#[tactic(auto, unfolding(ip_spec::specs::Load::load_line))]
pub fn load_line(state: &mut u64, number: u64, line: &mut Vec<u8>) -> Result<(), Memory>
    ensures line { OnOk result (line.new.items ≡ line.old.items ++ (load_line state.old number).0) }
    ensures state { state.new ≡ (load_line state.old number).1 }
    ensures roomy { vec_len line.old + LOAD_LINE_MAX ≤ vec_capacity line.old → IsOk result }
    ensures capacity { vec_capacity line.old ≤ vec_capacity line.new }
{
    let kind = next_word(state);
    let folder = next_word(state);
    let file = next_word(state);
    let value = next_word(state);
    put_line(kind, folder, file, value, number, line)
}

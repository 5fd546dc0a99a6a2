// The summary of a load.
ghost use Rattle.std.specs.Prelude.{◌≡◌, ◌+◌, ◌-◌, ◌^◌, ◌*◌, ◌<◌, ◌≤◌, ◌++◌, [], ◌∷◌, List, length, All, map, flat_map, vec_len, IfOk};
ghost use Rattle.std.specs.Fmt.{decimal};
ghost use Rattle.std.specs.Vec.{vec_capacity};
ghost use Rattle.ip_spec.specs.Load.{summary};
ghost use Rattle.ip_spec.specs.declared.reply.Reply.{Reply};
ghost use Rattle.ip_spec.specs.Text.{reply_text};
ghost use Rattle.ip_summary.specs.Tally.{noted, entry_text, pair_of};

use crate::words::{FIRST_WORDS, first_word};
use ip_base::Memory;
use itoa::Buffer;
use std::alloc::Global;

// The summary's line has fewer bytes: of each word at most 11, a count of at most 20 digits, and two spaces.
const LINE_ROOM: usize = 2048;

// A word, and how many replies begin with it.
#[derive(Drop)]
struct Entry {
    word: &'static [u8],
    count: u64,
}

impl Entry {
    // Counts a reply that begins with this word.
    fn note(&mut self, word: &[u8])
        ensures { self.new ≡ noted word.now self.old }
    {
        if self.word.cmp(word).is_eq() {
            self.count = self.count.saturating_add(1);
        }
    }

    // Writes it behind a space, if any reply began with the word.
    fn put(&self, out: &mut Vec<u8>)
        requires room { vec_len out.old + 33 ≤ vec_capacity out.old }
        requires short { length self.now.word.now ≤ 11 }
        ensures text { out.new.items ≡ out.old.items ++ entry_text self.now }
        ensures room { vec_len out.new ≤ vec_len out.old + 33 }
        ensures capacity { vec_capacity out.old ≤ vec_capacity out.new }
    {
        if self.count == 0 {
            return;
        }
        out.push(b' ').unwrap();
        out.extend_from_slice(self.word).unwrap();
        out.push(b' ').unwrap();
        put_number(self.count, out);
    }
}

// Writes a number in decimal digits, for which there is room.
fn put_number(n: u64, out: &mut Vec<u8>)
    requires room { vec_len out.old + 20 ≤ vec_capacity out.old }
    ensures text { out.new.items ≡ out.old.items ++ decimal n }
    ensures room { vec_len out.new ≤ vec_len out.old + 20 }
    ensures capacity { vec_capacity out.old ≤ vec_capacity out.new }
{
    let mut buffer = Buffer::new();
    out.extend_from_slice(buffer.format(n).as_bytes()).unwrap();
}

// Writes all of them in order.
fn put_entries(entries: &[Entry], out: &mut Vec<u8>)
    requires room { vec_len out.old + 33 * length entries.now ≤ vec_capacity out.old }
    requires short { All (λ entry. length entry.word.now ≤ 11) entries.now }
    ensures text { out.new.items ≡ out.old.items ++ flat_map entry_text entries.now }
    ensures room { vec_len out.new ≤ vec_len out.old + 33 * length entries.now }
    ensures capacity { vec_capacity out.old ≤ vec_capacity out.new }
{
    for entry in entries {
        entry.put(out);
    }
}

// An entry of no reply for each word.
fn unnoted(alloc: Global, words: &[&'static [u8]]) -> Result<Vec<Entry>, Memory>
    ensures { IfOk result (λ entries. map pair_of entries.items ≡ map (λ word. (word.now, 0)) words.now) }
{
    let mut entries = Vec::with_capacity(alloc, words.len())?;
    for word in words {
        entries.push(Entry {
            word: *word,
            count: 0,
        })?;
    }
    Ok(entries)
}

// Counts a reply that begins with this word.
fn note_word(entries: &mut [Entry], word: &[u8])
    ensures { entries.new ≡ map (noted word.now) entries.old }
{
    for entry in entries.iter_mut() {
        entry.note(word);
    }
}

/// How many of the replies so far begin with each word. All its memory is taken at first.
#[derive(Drop)]
pub struct Summary {
    entries: Vec<Entry>,
    line: Vec<u8>,
}

impl Summary {
    ghost use Rattle.ip_summary.specs.Tally.{Tallies};

    /// Of no reply.
    pub fn new(alloc: Global) -> Result<Summary, Memory>
        ensures { IfOk result (λ s. Tallies s []) }
    {
        Ok(Summary {
            entries: unnoted(alloc, &FIRST_WORDS)?,
            line: Vec::with_capacity(alloc, LINE_ROOM)?,
        })
    }

    /// Counts the reply that has this text. Of a text that is no reply's nothing is said: what is counted then may be of another word, or none.
    pub fn note(&mut self, text: &[u8])
        ensures { (replies : List Reply) (reply : Reply) → text.now ≡ reply_text reply → length replies < 2 ^ 64 - 1 → Tallies self.old replies → Tallies self.new (replies ++ reply ∷ []) }
    {
        note_word(&mut self.entries, first_word(text));
    }

    /// The line that is said of a load of so many lines, with its line feed.
    pub fn line(self, count: u64) -> Vec<u8>
        requires tallied { (replies : List Reply) × Tallies self replies }
        ensures { (replies : List Reply) → Tallies self replies → result.items ≡ summary count replies }
    {
        let mut line = self.line;
        line.extend_from_slice(b"load ").unwrap();
        put_number(count, &mut line);
        put_entries(&self.entries, &mut line);
        line.push(b'\n').unwrap();
        line
    }
}

// What the words of a line say, one behind the other.
ghost use Rattle.std.specs.Prelude.{◌≡◌, IfOk, IsOk};
ghost use Rattle.ip_script.specs.Dates.{date_value};
ghost use Rattle.ip_script.specs.Frugal.{IsNamed};
ghost use Rattle.ip_script.specs.Words.{left_of, word_at, left_at, path_at, place_at, contents_of, hash_of, target_of, info_at};
ghost use Rattle.ip_script.specs.declared.field.Field.TheVariants as Field;

use crate::date::date_at;
use crate::field::{Field, field_length};
use ip_base::{Blob, Hash, Info, Items, Memory, Path};
use ip_spec::command::Target;
use std::alloc::Global;

// The path that a word spells. The word was found to be one, so it is refused for want of memory alone.
fn path_of(alloc: Global, word: &[u8]) -> Result<Path, Memory>
    ensures { IfOk result (λ path. path ≡ path_at word.now) }
{
    match Path::read(alloc, word) {
        Ok(path) => Ok(path),
        Err(_) => Err(Memory),
    }
}

// The name that digits spell. The word was found to have 64 of them.
fn hash_of(digits: &[u8]) -> Hash
    ensures { result ≡ hash_of digits.now }
{
    let mut bytes = [0; 32];
    match hex::decode_to_slice(digits, &mut bytes) {
        Ok(()) => Hash(bytes),
        Err(_) => Hash([0; 32]),
    }
}

/// The words of a line that are still to be read, each behind a space. Each call reads the next one, of a line that was found
/// to have such a word there.
#[derive(Clone, Copy, Debug)]
pub struct Words<'a> {
    left: &'a [u8],
}

impl<'a> Words<'a> {
    /// All words of this text are left.
    pub fn new(text: &'a [u8]) -> Self
        ensures { left_of result ≡ text.now }
    {
        Words { left: text }
    }

    fn next(&mut self, field: Field) -> &'a [u8]
        ensures word { result.now ≡ word_at field (left_of self.old) }
        ensures left { left_of self.new ≡ left_at field (left_of self.old) }
    {
        let text = match self.left {
            [] => self.left,
            [_, text @ ..] => text,
        };
        let (word, left) = text.split_at(field_length(field, text));
        self.left = left;
        word
    }

    /// A path of one step or more.
    pub fn path(&mut self, alloc: Global) -> Result<Path, Memory>
        ensures value { IfOk result (λ path. path ≡ path_at (word_at Field.Path (left_of self.old))) }
        ensures left { left_of self.new ≡ left_at Field.Path (left_of self.old) }
    {
        path_of(alloc, self.next(Field::Path))
    }

    /// A path, or the root.
    pub fn place(&mut self, alloc: Global) -> Result<Path, Memory>
        ensures value { IfOk result (λ path. path ≡ place_at (word_at Field.Place (left_of self.old))) }
        ensures left { left_of self.new ≡ left_at Field.Place (left_of self.old) }
    {
        let word = self.next(Field::Place);
        match word {
            [b'/', ..] => Ok(Path::of(Items::empty(alloc))),
            _ => path_of(alloc, word),
        }
    }

    /// Bytes by their digits. The word was found to be digits, so it is refused for want of memory alone.
    pub fn contents(&mut self, alloc: Global) -> Result<Blob, Memory>
        ensures value { IfOk result (λ bytes. bytes ≡ contents_of (word_at Field.Hex (left_of self.old))) }
        ensures left { left_of self.new ≡ left_at Field.Hex (left_of self.old) }
    {
        let word = self.next(Field::Hex);
        if word == b"-".as_slice() {
            return Ok(Blob::empty(alloc));
        }
        match hex::decode(alloc, word) {
            Ok(bytes) => Ok(Blob::of(bytes)),
            Err(_) => Err(Memory),
        }
    }

    /// A branch, or a commit by its name, which takes no memory.
    pub fn target(&mut self, alloc: Global) -> Result<Target, Memory>
        ensures value { IfOk result (λ target. target ≡ target_of (word_at Field.Reference (left_of self.old))) }
        ensures spare { IsNamed (target_of (word_at Field.Reference (left_of self.old))) → IsOk result }
        ensures left { left_of self.new ≡ left_at Field.Reference (left_of self.old) }
    {
        let word = self.next(Field::Reference);
        match word {
            [b'@', digits @ ..] => Ok(Target::Commit(hash_of(digits))),
            _ => Ok(Target::Branch(Blob::copy_of(alloc, word)?)),
        }
    }

    /// Who made a commit, when and why: three words.
    pub fn info(&mut self, alloc: Global) -> Result<Info, Memory>
        ensures { IfOk result (λ info. info ≡ info_at (left_of self.old)) }
    {
        Ok(Info {
            date: self.date(),
            author: self.text(alloc, Field::Author)?,
            message: self.text(alloc, Field::Message)?,
        })
    }

    fn date(&mut self) -> u64
        ensures value { result ≡ date_value (word_at Field.Date (left_of self.old)) }
        ensures left { left_of self.new ≡ left_at Field.Date (left_of self.old) }
    {
        date_at(self.next(Field::Date)).value
    }

    /// The bytes of a word as they stand.
    pub fn text(&mut self, alloc: Global, field: Field) -> Result<Blob, Memory>
        ensures value { IfOk result (λ bytes. bytes ≡ word_at field (left_of self.old)) }
        ensures left { left_of self.new ≡ left_at field (left_of self.old) }
    {
        Blob::copy_of(alloc, self.next(field))
    }
}

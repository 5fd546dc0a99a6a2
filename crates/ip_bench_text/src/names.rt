// What words in braces stand for.
use crate::bytes::put_value;
use ip_spawn::Job;
use std::alloc::Global;
use std::test::Fail;

#[derive(Drop)]
struct Name {
    word: String,
    text: String,
}

/// Words, and the texts that they stand for in braces.
#[derive(Drop)]
pub struct Names {
    alloc: Global,
    all: Vec<Name>,
}

impl Names {
    pub fn new(alloc: Global) -> Names {
        Names {
            alloc,
            all: Vec::new(alloc),
        }
    }

    /// From now on a word stands for a text.
    pub fn set(&mut self, word: &str, text: &str) -> Result<(), Fail> {
        let text = String::from_str(self.alloc, text)?;
        for name in self.all.iter_mut() {
            if name.word.as_str() == word {
                name.text = text;
                return Ok(());
            }
        }
        let word = String::from_str(self.alloc, word)?;
        Ok(self.all.push(Name { word, text })?)
    }

    // Puts what a word stands for.
    fn put_name(&self, word: &str, out: &mut String) -> Result<(), Fail> {
        for name in &self.all {
            if name.word.as_str() == word {
                return Ok(out.push_str(&name.text)?);
            }
        }
        Err(Fail::new(format_args!("no name {word:?}")))
    }

    // Puts what stands for this within braces: a text so many times, a value of so many bytes, or a name.
    fn put(&self, inside: &str, out: &mut String) -> Result<(), Fail> {
        if let Some((text, count)) = inside.split_once('*') {
            return put_times(text, number(count)?, out);
        }
        match inside.strip_prefix("value ") {
            Some(count) => put_bytes(self.alloc, number(count)?, out),
            None => self.put_name(inside, out),
        }
    }

    /// The line with each word in braces as what it stands for.
    pub fn expanded(&self, line: &str) -> Result<String, Fail> {
        let mut out = String::new(self.alloc);
        let mut pieces = line.split('{');
        if let Some(first) = pieces.next() {
            out.push_str(first)?;
        }
        for piece in pieces {
            let Some((inside, behind)) = piece.split_once('}') else {
                return Err("a brace is not closed")?;
            };
            self.put(inside, &mut out)?;
            out.push_str(behind)?;
        }
        Ok(out)
    }
}

/// The number that a word spells.
pub fn number(word: &str) -> Result<u64, Fail> {
    match Job::number(word) {
        Some(number) => Ok(number),
        None => Err(Fail::new(format_args!("no number: {word:?}"))),
    }
}

fn put_times(text: &str, count: u64, out: &mut String) -> Result<(), Fail> {
    for _ in 0..count {
        out.push_str(text)?;
    }
    Ok(())
}

fn put_bytes(alloc: Global, count: u64, out: &mut String) -> Result<(), Fail> {
    let mut digits = Vec::new(alloc);
    put_value(&mut digits, count as usize)?;
    match str::from_utf8(&digits) {
        Ok(text) => Ok(out.push_str(text)?),
        Err(_) => Err("no text")?,
    }
}

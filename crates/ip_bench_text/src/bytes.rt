// Files and bytes, as texts have them.
use crate::names::number;
use ip_ground::FileName;
use std::alloc::Global;
use std::test::Fail;

/// Some bytes that words say.
#[derive(Drop)]
pub enum Piece {
    /// These.
    Bytes(Vec<u8>),
    /// Those of a file, as it is then: from a place on, so many.
    Of(FileName, u64, u64),
}

/// The file of a name.
pub fn file_of(word: &str) -> Result<FileName, Fail> {
    if word == "control" {
        return Ok(FileName::Control);
    }
    match word.split_once('.') {
        Some(("chunk", digits)) => Ok(FileName::Chunk(number(digits)?)),
        Some(("prefix", digits)) => Ok(FileName::Prefix(number(digits)?)),
        Some(("mapping", digits)) => Ok(FileName::Mapping(number(digits)?)),
        Some(("done", digits)) => Ok(FileName::Done(number(digits)?)),
        _ => Err(Fail::new(format_args!("no file: {word:?}"))),
    }
}

/// The byte that two hex digits spell.
pub fn byte_of(word: &str) -> Result<u8, Fail> {
    match u8::from_str_radix(word, 16) {
        Ok(byte) => Ok(byte),
        Err(_) => Err(Fail::new(format_args!("no byte: {word:?}"))),
    }
}

fn put_hex(word: &str, out: &mut Vec<u8>) -> Result<(), Fail> {
    for pair in word.as_bytes().chunks(2) {
        match str::from_utf8(pair) {
            Ok(digits) => out.push(byte_of(digits)?)?,
            Err(_) => return Err("no byte")?,
        }
    }
    Ok(())
}

// Puts a byte so many times.
fn put_times(byte: &str, count: &str, out: &mut Vec<u8>) -> Result<(), Fail> {
    let byte = byte_of(byte)?;
    for _ in 0..number(count)? {
        out.push(byte)?;
    }
    Ok(())
}

// Puts the lowest bytes of a number, the lowest first.
fn put_number(digits: &str, count: usize, out: &mut Vec<u8>) -> Result<(), Fail> {
    for byte in number(digits)?.to_le_bytes().iter().take(count) {
        out.push(*byte)?;
    }
    Ok(())
}

// Puts what a word says that names no file: a text's bytes, a number, a byte so many times, or bytes in hex.
fn put_word(word: &str, out: &mut Vec<u8>) -> Result<(), Fail> {
    match word.split_once(':') {
        Some(("text", text)) => return Ok(out.extend_from_slice(text.as_bytes())?),
        Some(("u64", digits)) => return put_number(digits, 8, out),
        Some(("u32", digits)) => return put_number(digits, 4, out),
        Some(("u16", digits)) => return put_number(digits, 2, out),
        _ => (),
    }
    match word.split_once('*') {
        Some((byte, count)) => put_times(byte, count, out),
        None => put_hex(word, out),
    }
}

/// The bytes that words say of which none names a file.
pub fn bytes_in(alloc: Global, words: &str) -> Result<Vec<u8>, Fail> {
    let mut out = Vec::new(alloc);
    for word in words.split_whitespace() {
        put_word(word, &mut out)?;
    }
    Ok(out)
}

// A file, a place and a count, where a word says these.
fn part_of(word: &str) -> Result<Option<Piece>, Fail> {
    let Some((file, rest)) = word.split_once(':') else {
        return Ok(None);
    };
    match rest.split_once(':') {
        Some((at, count)) => Ok(Some(Piece::Of(file_of(file)?, number(at)?, number(count)?))),
        None => Ok(None),
    }
}

/// The bytes that words say.
pub fn pieces_in(alloc: Global, words: &str) -> Result<Vec<Piece>, Fail> {
    let mut out = Vec::new(alloc);
    for word in words.split_whitespace() {
        match part_of(word)? {
            Some(part) => out.push(part)?,
            None => out.push(Piece::Bytes(bytes_in(alloc, word)?))?,
        }
    }
    Ok(out)
}

/// Puts the hex digits of so many bytes: 0, 1 and so on, from 0 again behind 255.
pub fn put_value(out: &mut Vec<u8>, count: usize) -> Result<(), Fail> {
    const DIGITS: &[u8; 16] = b"0123456789abcdef";
    for k in 0..count {
        out.push(DIGITS[k / 16 % 16])?;
        out.push(DIGITS[k % 16])?;
    }
    Ok(())
}

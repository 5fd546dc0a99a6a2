// A store is made, and what a call reads.
use ip_app::{ProgramRules, Silent, Status, run};
use ip_base::Blob;
use ip_ground::Bench;
use ip_script::Bytes;
use ip_spawn::Scripted;
use std::alloc::{AllocError, Global};
use std::test::Fail;

/// The words of a call, the program's name first. A word of two quotes is one without bytes.
pub fn words_of(alloc: Global, words: &str) -> Result<Vec<String>, AllocError> {
    let mut out = Vec::new(alloc);
    out.push(String::from_str(alloc, "ipstore")?)?;
    for word in words.split_whitespace() {
        let word = if word == "''" { "" } else { word };
        out.push(String::from_str(alloc, word)?)?;
    }
    Ok(out)
}

/// The bytes of a script, of which reads of these numbers fail.
pub fn source(alloc: Global, script: &[u8], fails: &[u64]) -> Result<Bytes, AllocError> {
    let script = Blob::of(Vec::from_slice(alloc, script)?);
    Ok(Bytes::new(script, Vec::from_slice(alloc, fails)?))
}

/// Makes a store with chunks of this size, a number of bytes as it is written, by four calls of the ground.
pub fn init_with(alloc: Global, ground: &mut Bench, size: &str) -> Result<(), Fail> {
    let words = format!(in alloc; "init mem --chunk {size}")?;
    let words = words_of(alloc, &words)?;
    let mut none = source(alloc, b"", &[])?;
    let mut childless = Scripted::new(alloc, Vec::new(alloc), Vec::new(alloc));
    match run(
        alloc,
        &words,
        &mut none,
        ground,
        &mut childless,
        &ProgramRules,
        &mut Silent,
    ) {
        Status::Done => Ok(()),
        _ => Err("not made")?,
    }
}

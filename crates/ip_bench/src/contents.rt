// Files of grounds in memory.
use ip_bench_text::Piece;
use ip_ground::{FileName, Ground};
use std::alloc::Global;
use std::test::Fail;

/// What a file holds; nothing where it is absent.
pub fn content_of<G: Ground>(
    alloc: Global,
    ground: &mut G,
    file: FileName,
) -> Result<Option<Vec<u8>>, Fail> {
    let Ok(length) = ground.length(file) else {
        return Err("no length")?;
    };
    let Some(length) = length else {
        return Ok(None);
    };
    let mut out = vec![in alloc; 0; length as usize]?;
    match ground.read(file, 0, &mut out) {
        Ok(_) => Ok(Some(out)),
        Err(_) => Err("not read")?,
    }
}

/// Puts this in place of what a file holds, and syncs it.
pub fn replace<G: Ground>(
    ground: &mut G,
    file: FileName,
    content: &Option<Vec<u8>>,
) -> Result<(), Fail> {
    if ground.remove(file).is_err() {
        return Err("not removed")?;
    }
    let Some(bytes) = content else {
        return Ok(());
    };
    if ground.write(file, 0, bytes).is_err() || ground.sync(file).is_err() {
        return Err("not written")?;
    }
    Ok(())
}

// Puts so many bytes of a file, from a place on.
fn put_part<G: Ground>(
    alloc: Global,
    ground: &mut G,
    part: (FileName, u64, u64),
    out: &mut Vec<u8>,
) -> Result<(), Fail> {
    let (file, at, count) = part;
    let Some(bytes) = content_of(alloc, ground, file)? else {
        return Err(Fail::new(format_args!("{file:?} is not there")));
    };
    let rest = bytes.get(at as usize..).unwrap_or(&[]);
    match rest.get(..count as usize) {
        Some(part) => Ok(out.extend_from_slice(part)?),
        None => Err(Fail::new(format_args!("{file:?} has no such part"))),
    }
}

/// The bytes that words say, where they name files by what these hold now.
pub fn bytes_by<G: Ground>(
    alloc: Global,
    ground: &mut G,
    pieces: &[Piece],
) -> Result<Vec<u8>, Fail> {
    let mut out = Vec::new(alloc);
    for piece in pieces {
        match piece {
            Piece::Bytes(bytes) => out.extend_from_slice(bytes)?,
            Piece::Of(file, at, count) => {
                put_part(alloc, ground, (*file, *at, *count), &mut out)?;
            }
        }
    }
    Ok(out)
}

// Files of pairs that are not as they have to be, drawn from those that are.
use crate::drawn::Drawn;
use ip_spec::reply::{Difference, Produced, Seen};
use std::test::Fail;

// What stands at a place.
fn seen_at(bytes: &[u8], at: usize) -> Seen {
    match bytes.get(at) {
        Some(byte) => Seen::Byte(*byte),
        None => Seen::End,
    }
}

// Another byte at a place, if there is one.
fn turn(drawn: &mut Drawn, bytes: &mut Vec<u8>, at: usize) {
    let step = (1 + drawn.draw(255) % 255) as u8;
    if let Some(byte) = bytes.get_mut(at) {
        *byte = byte.wrapping_add(step);
    }
}

/// What is left in place of a file: nothing, more, less, or another byte.
pub fn garbled(drawn: &mut Drawn, valid: &[u8]) -> Result<Option<Vec<u8>>, Fail> {
    let mut bytes = Vec::from_slice(drawn.alloc, valid)?;
    let at = drawn.draw(valid.len() as u64) as usize;
    match drawn.draw(5) {
        0 => return Ok(None),
        1 => bytes.push(7)?,
        2 => bytes.truncate(at),
        _ => turn(drawn, &mut bytes, at),
    }
    Ok(Some(bytes))
}

/// The first place at which a file differs from the one that has to be there.
pub fn difference(file: Produced, valid: &[u8], left: &Option<Vec<u8>>) -> Option<Difference> {
    let Some(bytes) = left else {
        return Some(Difference {
            file,
            at: 0,
            want: seen_at(valid, 0),
            got: Seen::Absent,
        });
    };
    for at in 0..valid.len().max(bytes.len()) {
        let want = seen_at(valid, at);
        let got = seen_at(bytes, at);
        if want != got {
            return Some(Difference {
                file,
                at: at as u64,
                want,
                got,
            });
        }
    }
    None
}

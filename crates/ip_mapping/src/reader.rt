// Numbers at the front of bytes, least byte first.
ghost use Rattle.std.specs.Prelude.{◌≡◌, ◌<◌, ◌++◌, length, MatchOption};
ghost use Rattle.ip_spec.specs.Record.{u64};
ghost use Rattle.ip_image.specs.Virtual.{row_bytes};

use ip_image::run::Row;

// The number that bytes begin with, and the bytes behind it.
pub fn take_number(bytes: &[u8]) -> Option<(u64, &[u8])>
    ensures { MatchOption result (length bytes.now < 8) (λ r. bytes.now ≡ u64 r.0 ++ r.1.now) }
{
    let (front, rest) = bytes.split_first_chunk()?;
    Some((u64::from_le_bytes(*front), rest))
}

// The row that bytes begin with, and the bytes behind it.
pub fn take_row(bytes: &[u8]) -> Option<(Row, &[u8])>
    ensures { MatchOption result (length bytes.now < 24) (λ r. bytes.now ≡ row_bytes r.0 ++ r.1.now) }
{
    let (at, behind_at) = take_number(bytes)?;
    let (length, behind_length) = take_number(behind_at)?;
    let (place, rest) = take_number(behind_length)?;
    Some((Row { at, length, place }, rest))
}

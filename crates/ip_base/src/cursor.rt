// Fields of bytes: taken from the front, and put behind. Numbers are little-endian and unsigned.
ghost use Rattle.std.specs.Prelude.{◌≡◌, ◌<◌, ◌≤◌, ◌+◌, ◌++◌, length, option_map, OnOk, OnErr, vec_len};
ghost use Rattle.std.specs.Option.{option_copied};
ghost use Rattle.std.specs.Vec.{vec_capacity};
ghost use Rattle.std.specs.Int.{w8, w16, w32, w64, from_le_bytes, to_le_bytes};
ghost use Rattle.ip_base.specs.Fields.{left_of, taken, left_behind};

use crate::Memory;

/// The bytes of a record that are still to be read. Each call takes a field from the front, or nothing where fewer bytes are left.
#[derive(Clone, Copy, Debug)]
pub struct Cursor<'a> {
    left: &'a [u8],
}

impl<'a> Cursor<'a> {
    /// All of the bytes are left.
    pub fn new(bytes: &'a [u8]) -> Self
        ensures { left_of result ≡ bytes.now }
    {
        Cursor { left: bytes }
    }

    /// How many bytes are left.
    pub fn left(&self) -> usize
        ensures { result ≡ length (left_of self.now) }
    {
        self.left.len()
    }

    /// The next `n` bytes.
    pub fn take_bytes(&mut self, n: usize) -> Option<&'a [u8]>
        ensures value { option_copied result ≡ taken n (left_of self.old) }
        ensures left { left_of self.new ≡ left_behind n (left_of self.old) }
    {
        if n > self.left.len() {
            return None;
        }
        let (front, rest) = self.left.split_at(n);
        self.left = rest;
        Some(front)
    }

    /// A number of one byte.
    pub fn take_u8(&mut self) -> Option<u8>
        ensures value { result ≡ option_map (from_le_bytes w8) (taken 1 (left_of self.old)) }
        ensures left { left_of self.new ≡ left_behind 1 (left_of self.old) }
    {
        match self.take_bytes(1) {
            Some([a]) => Some(*a),
            _ => None,
        }
    }

    /// A number of two bytes.
    pub fn take_u16(&mut self) -> Option<u16>
        ensures value { result ≡ option_map (from_le_bytes w16) (taken 2 (left_of self.old)) }
        ensures left { left_of self.new ≡ left_behind 2 (left_of self.old) }
    {
        match self.take_bytes(2) {
            Some([a, b]) => Some(u16::from_le_bytes([*a, *b])),
            _ => None,
        }
    }

    /// A number of four bytes.
    pub fn take_u32(&mut self) -> Option<u32>
        ensures value { result ≡ option_map (from_le_bytes w32) (taken 4 (left_of self.old)) }
        ensures left { left_of self.new ≡ left_behind 4 (left_of self.old) }
    {
        match self.take_bytes(4) {
            Some([a, b, c, d]) => Some(u32::from_le_bytes([*a, *b, *c, *d])),
            _ => None,
        }
    }

    /// A number of eight bytes.
    pub fn take_u64(&mut self) -> Option<u64>
        ensures value { result ≡ option_map (from_le_bytes w64) (taken 8 (left_of self.old)) }
        ensures left { left_of self.new ≡ left_behind 8 (left_of self.old) }
    {
        match self.take_bytes(8) {
            Some([a, b, c, d, e, f, g, h]) => Some(u64::from_le_bytes([
                *a, *b, *c, *d, *e, *f, *g, *h,
            ])),
            _ => None,
        }
    }
}

/// Puts bytes behind what is there. A refused growth changes nothing, and does not come where there is room.
pub fn put_bytes(out: &mut Vec<u8>, bytes: &[u8]) -> Result<(), Memory>
    ensures ok { OnOk result (out.new.items ≡ out.old.items ++ bytes.now) }
    ensures err { OnErr result (out.new.items ≡ out.old.items) }
    ensures room { OnErr result (vec_capacity out.old < vec_len out.old + length bytes.now) }
    ensures capacity { vec_capacity out.old ≤ vec_capacity out.new }
{
    Ok(out.extend_from_slice(bytes)?)
}

/// Puts a number of one byte.
pub fn put_u8(out: &mut Vec<u8>, v: u8) -> Result<(), Memory>
    ensures ok { OnOk result (out.new.items ≡ out.old.items ++ to_le_bytes w8 v) }
    ensures err { OnErr result (out.new.items ≡ out.old.items) }
    ensures room { OnErr result (vec_capacity out.old < vec_len out.old + 1) }
    ensures capacity { vec_capacity out.old ≤ vec_capacity out.new }
{
    put_bytes(out, &[v])
}

/// Puts a number of two bytes.
pub fn put_u16(out: &mut Vec<u8>, v: u16) -> Result<(), Memory>
    ensures ok { OnOk result (out.new.items ≡ out.old.items ++ to_le_bytes w16 v) }
    ensures err { OnErr result (out.new.items ≡ out.old.items) }
    ensures room { OnErr result (vec_capacity out.old < vec_len out.old + 2) }
    ensures capacity { vec_capacity out.old ≤ vec_capacity out.new }
{
    put_bytes(out, &v.to_le_bytes())
}

/// Puts a number of four bytes.
pub fn put_u32(out: &mut Vec<u8>, v: u32) -> Result<(), Memory>
    ensures ok { OnOk result (out.new.items ≡ out.old.items ++ to_le_bytes w32 v) }
    ensures err { OnErr result (out.new.items ≡ out.old.items) }
    ensures room { OnErr result (vec_capacity out.old < vec_len out.old + 4) }
    ensures capacity { vec_capacity out.old ≤ vec_capacity out.new }
{
    put_bytes(out, &v.to_le_bytes())
}

/// Puts a number of eight bytes.
pub fn put_u64(out: &mut Vec<u8>, v: u64) -> Result<(), Memory>
    ensures ok { OnOk result (out.new.items ≡ out.old.items ++ to_le_bytes w64 v) }
    ensures err { OnErr result (out.new.items ≡ out.old.items) }
    ensures room { OnErr result (vec_capacity out.old < vec_len out.old + 8) }
    ensures capacity { vec_capacity out.old ≤ vec_capacity out.new }
{
    put_bytes(out, &v.to_le_bytes())
}

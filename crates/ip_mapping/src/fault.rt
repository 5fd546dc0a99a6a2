/// Why bytes are not read as a mapping.
#[derive(Clone, Copy, Debug, PartialEq, Eq)]
pub enum MappingFault {
    /// They are none: the place, in bytes, of the first test that fails. It is 0 for the length, the magic
    /// and the numbers in front of the rows, else the first byte of a row.
    Form(u64),
    /// Want of memory: they may be one.
    Memory,
}

// The parts of records, read in the order of their fields.
ghost use Rattle.std.specs.Prelude.{◌≡◌, ◌≤◌, ℕ, None, IfOk, OnErr, IsErr, Err, length};
ghost use Rattle.std.specs.Option.{option_copied};
ghost use Rattle.ip_spec.specs.Reading.{text_field, entry_field, entry_fields, child_field, child_fields, parent_fields, info_fields, row_fields};
ghost use Rattle.ip_spec.specs.declared.record.RecordFault.TheVariants as fault;
ghost use Rattle.ip_object.specs.Body.{left_in, Takes, IsInside, is_text};

use crate::body::{
    Body, Text, take_hash, take_kind, take_message_length, take_some_u8, take_some_u32, take_text,
    take_u64, take_up_to,
};
use ip_base::{Blob, Info, Number, Step};
use ip_spec::record::{
    Branch, Branches, InodeChild, InodeChildren, LeafEntries, LeafEntry, Parent, Parents,
    RecordFault,
};
use std::alloc::Global;

// A copy of the bytes.
pub fn owned(alloc: Global, bytes: &[u8]) -> Result<Blob, RecordFault>
    ensures ok { IfOk result (λ blob. blob ≡ bytes.now) }
    ensures err { IsErr result → result ≡ Err fault.Memory }
{
    match Blob::copy_of(alloc, bytes) {
        Ok(blob) => Ok(blob),
        Err(_) => Err(RecordFault::Memory),
    }
}

// A text with its length in one byte.
pub fn take_short(
    alloc: Global,
    body: &mut Body<'_>,
    text: Text,
    before: Option<&[u8]>,
) -> Result<Blob, RecordFault>
    requires inside { IsInside body.old }
    ensures inside { IsInside body.new }
    ensures takes { Takes (text_field (is_text text) (option_copied before.entry) (left_in body.old)) result (left_in body.new) }
{
    let n = take_some_u8(body)?;
    let bytes = take_text(body, text, before, n as usize)?;
    owned(alloc, bytes)
}

pub fn take_entry(
    alloc: Global,
    body: &mut Body<'_>,
    before: Option<&[u8]>,
) -> Result<LeafEntry, RecordFault>
    requires inside { IsInside body.old }
    ensures inside { IsInside body.new }
    ensures takes { Takes (entry_field (option_copied before.entry) (left_in body.old)) result (left_in body.new) }
{
    let step = Step::of(take_short(alloc, body, Text::Step, before)?);
    let kind = take_kind(body)?;
    let height = take_up_to(body, 63)?;
    let name = take_hash(body)?;
    let at = take_u64(body)?;
    Ok(LeafEntry {
        step,
        kind,
        height,
        name,
        at,
    })
}

pub fn take_child(body: &mut Body<'_>, index: u8) -> Result<InodeChild, RecordFault>
    requires inside { IsInside body.old }
    ensures inside { IsInside body.new }
    ensures takes { Takes (child_field index (left_in body.old)) result (left_in body.new) }
{
    let count = take_some_u32(body)?;
    let height = take_up_to(body, 64)?;
    let name = take_hash(body)?;
    let at = take_u64(body)?;
    Ok(InodeChild {
        index,
        count,
        height,
        name,
        at,
    })
}

pub fn take_info(alloc: Global, body: &mut Body<'_>) -> Result<Info, RecordFault>
    requires inside { IsInside body.old }
    ensures inside { IsInside body.new }
    ensures takes { Takes (info_fields (left_in body.old)) result (left_in body.new) }
{
    let date = take_u64(body)?;
    let author = take_short(alloc, body, Text::Author, None)?;
    let n = take_message_length(body)?;
    let bytes = take_text(body, Text::Message, None, n as usize)?;
    let message = owned(alloc, bytes)?;
    Ok(Info {
        date,
        author,
        message,
    })
}

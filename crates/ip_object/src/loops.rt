// The lists of records, one element behind the other.
ghost use Rattle.std.specs.Prelude.{◌≡◌, ◌≤◌, ◌<◌, ◌+◌, None, option_map, OnOk, IfErr};
ghost use Rattle.ip_spec.specs.Reading.{Left, entry_fields, parent_fields, row_fields};
ghost use Rattle.ip_object.specs.Body.{left_in, Takes, IsFault, IsInside};
ghost use Rattle.ip_object.specs.Lists.{last_step, last_name, ReadBelow};

use crate::body::{Body, Text, take_hash, take_u64};
use crate::lists::{take_child, take_entry, take_short};
use ip_base::Number;
use ip_spec::record::{
    Branch, Branches, InodeChild, InodeChildren, LeafEntries, LeafEntry, Parent, Parents,
    RecordFault,
};
use std::alloc::Global;

// The bytes of an entry whose step has one byte.
const SHORTEST_ENTRY: usize = 44;

// The bytes of a row whose name has one byte.
const SHORTEST_ROW: usize = 10;

// The step of the last entry so far.
fn last_step(entries: &[LeafEntry]) -> Option<&[u8]>
    ensures { option_copied result ≡ last_step entries.now }
{
    match entries.last() {
        Some(entry) => Some(entry.step.bytes()),
        None => None,
    }
}

// The name of the last row so far.
fn last_name(rows: &[Branch]) -> Option<&[u8]>
    ensures { option_copied result ≡ last_name rows.now }
{
    match rows.last() {
        Some(row) => Some(row.name.as_slice()),
        None => None,
    }
}

pub fn take_entries(
    alloc: Global,
    body: &mut Body<'_>,
    count: u32,
) -> Result<LeafEntries, RecordFault>
    requires inside { IsInside body.old }
    ensures inside { IsInside body.new }
    ensures takes { Takes (entry_fields count None (left_in body.old)) result (left_in body.new) }
{
    let most = body.left.left() / SHORTEST_ENTRY;
    let Ok(mut entries) = Vec::with_capacity(alloc, most.min(count as usize)) else {
        return Err(RecordFault::Memory);
    };
    for _ in 0..count {
        let entry = take_entry(alloc, body, last_step(&entries))?;
        if entries.push(entry).is_err() {
            return Err(RecordFault::Memory);
        }
    }
    Ok(LeafEntries::of(entries))
}

// Takes the child of a bit, where it is set.
fn take_bit(
    body: &mut Body<'_>,
    children: &mut Vec<InodeChild>,
    bitmap: u32,
    index: u8,
) -> Result<(), RecordFault>
    requires inside { IsInside body.old }
    requires index { index < 32 }
    ensures inside { IsInside body.new }
    ensures ok { OnOk result ((first : Left) → ReadBelow bitmap index children.old.items first (left_in body.old) → ReadBelow bitmap (index + 1) children.new.items first (left_in body.new)) }
    ensures err { IfErr result (λ fault. (first : Left) → ReadBelow bitmap index children.old.items first (left_in body.old) → IsFault fault (children_of_bits bitmap first)) }
{
    if (bitmap >> index) % 2 == 0 {
        return Ok(());
    }
    let child = take_child(body, index)?;
    match children.push(child) {
        Ok(()) => Ok(()),
        Err(_) => Err(RecordFault::Memory),
    }
}

pub fn take_children(
    alloc: Global,
    body: &mut Body<'_>,
    bitmap: u32,
) -> Result<InodeChildren, RecordFault>
    requires inside { IsInside body.old }
    ensures inside { IsInside body.new }
    ensures takes { Takes (children_of_bits bitmap (left_in body.old)) result (left_in body.new) }
{
    let Ok(mut children) = Vec::with_capacity(alloc, bitmap.count_ones() as usize) else {
        return Err(RecordFault::Memory);
    };
    for index in 0..32u8 {
        take_bit(body, &mut children, bitmap, index)?;
    }
    Ok(InodeChildren::of(children))
}

fn take_parent(body: &mut Body<'_>) -> Result<Parent, RecordFault>
    requires inside { IsInside body.old }
    ensures inside { IsInside body.new }
    ensures takes { Takes (parent_field (left_in body.old)) result (left_in body.new) }
{
    let number = Number(take_u64(body)?);
    let name = take_hash(body)?;
    Ok(Parent { number, name })
}

pub fn take_parents(alloc: Global, body: &mut Body<'_>, count: u8) -> Result<Parents, RecordFault>
    requires inside { IsInside body.old }
    ensures inside { IsInside body.new }
    ensures takes { Takes (parent_fields count (left_in body.old)) result (left_in body.new) }
{
    let Ok(mut parents) = Vec::with_capacity(alloc, count as usize) else {
        return Err(RecordFault::Memory);
    };
    for _ in 0..count {
        let parent = take_parent(body)?;
        if parents.push(parent).is_err() {
            return Err(RecordFault::Memory);
        }
    }
    Ok(Parents::of(parents))
}

fn take_row(
    alloc: Global,
    body: &mut Body<'_>,
    before: Option<&[u8]>,
) -> Result<Branch, RecordFault>
    requires inside { IsInside body.old }
    ensures inside { IsInside body.new }
    ensures takes { Takes (row_field (option_copied before.entry) (left_in body.old)) result (left_in body.new) }
{
    let name = take_short(alloc, body, Text::Name, before)?;
    let number = Number(take_u64(body)?);
    Ok(Branch { name, number })
}

pub fn take_rows(alloc: Global, body: &mut Body<'_>, count: u16) -> Result<Branches, RecordFault>
    requires inside { IsInside body.old }
    ensures inside { IsInside body.new }
    ensures takes { Takes (row_fields count None (left_in body.old)) result (left_in body.new) }
{
    let most = body.left.left() / SHORTEST_ROW;
    let Ok(mut rows) = Vec::with_capacity(alloc, most.min(count as usize)) else {
        return Err(RecordFault::Memory);
    };
    for _ in 0..count {
        let row = take_row(alloc, body, last_name(&rows))?;
        if rows.push(row).is_err() {
            return Err(RecordFault::Memory);
        }
    }
    Ok(Branches::of(rows))
}

ghost use Rattle.std.specs.Option.{option_copied};
ghost use Rattle.ip_object.specs.Lists.{parent_field, row_field, children_of_bits};

// Records read from the front of bytes.
ghost use Rattle.std.specs.Prelude.{◌≡◌, ◌<◌, ◌^◌, ◌++◌, Err, IfOk, IsErrOf, MatchOption, length, if◌then◌else◌};
ghost use Rattle.ip_spec.specs.declared.record.RecordFault.TheVariants as fault;
ghost use Rattle.ip_spec.specs.Record.{Fits, spelling, contents_limit};
ghost use Rattle.ip_spec.specs.Path.{Bytes};
ghost use Rattle.ip_spec.specs.Record.Names.{branches, tags};
ghost use Rattle.ip_spec.specs.Reading.{reading, known, body_of, fields_of, leaf_fields, commit_fields, table_fields, set_fields, remove_fields};
ghost use Rattle.ip_object.specs.Lists.{contents_fields, inode_by_bits, set_field, rows_field};
ghost use Rattle.ip_object.specs.Body.{left_in, Takes, IsInside, IsRead, IsBehindHead};

use crate::body::{
    Body, Text, take, take_hash, take_some_u32, take_table_length, take_u32, take_u64, take_up_to,
};
use crate::lists::{owned, take_info, take_short};
use crate::loops::{take_children, take_entries, take_parents, take_rows};
use ip_base::limit::{CONTENTS_MAX, CONTENTS_MAX_VERSION_2, PARENTS_MAX};
use ip_base::{Blob, Cursor, Number};
use ip_spec::kind;
use ip_spec::record::{Branches, CommitRecord, Record, RecordFault};
use std::alloc::Global;

fn take_contents(alloc: Global, body: &mut Body<'_>) -> Result<Record, RecordFault>
    requires inside { IsInside body.old }
    ensures inside { IsInside body.new }
    ensures takes { Takes (contents_fields (left_in body.old)) result (left_in body.new) }
{
    let n = body.left.left();
    let bytes = take(body, n)?;
    Ok(Record::Contents(owned(alloc, bytes)?))
}

fn take_leaf(alloc: Global, body: &mut Body<'_>) -> Result<Record, RecordFault>
    requires inside { IsInside body.old }
    ensures inside { IsInside body.new }
    ensures takes { Takes (leaf_fields (left_in body.old)) result (left_in body.new) }
{
    let count = take_u32(body)?;
    let entries = take_entries(alloc, body, count)?;
    Ok(Record::Leaf(entries))
}

#[tactic(auto, unfolding(crate::specs::Lists::children_of_bits))]
fn take_inode(alloc: Global, body: &mut Body<'_>) -> Result<Record, RecordFault>
    requires inside { IsInside body.old }
    ensures inside { IsInside body.new }
    ensures takes { Takes (inode_by_bits (left_in body.old)) result (left_in body.new) }
{
    let depth = take_up_to(body, 50)?;
    let bitmap = take_some_u32(body)?;
    let children = take_children(alloc, body, bitmap)?;
    Ok(Record::Inode { depth, children })
}

fn take_commit(alloc: Global, body: &mut Body<'_>) -> Result<Record, RecordFault>
    requires inside { IsInside body.old }
    ensures inside { IsInside body.new }
    ensures takes { Takes (commit_fields (left_in body.old)) result (left_in body.new) }
{
    let number = Number(take_u64(body)?);
    let root_name = take_hash(body)?;
    let root_at = take_u64(body)?;
    let count = take_up_to(body, PARENTS_MAX as u8)?;
    let parents = take_parents(alloc, body, count)?;
    let info = take_info(alloc, body)?;
    Ok(Record::Commit(CommitRecord {
        number,
        root_name,
        root_at,
        parents,
        info,
    }))
}

fn take_set(alloc: Global, body: &mut Body<'_>) -> Result<(Number, Blob), RecordFault>
    requires inside { IsInside body.old }
    ensures inside { IsInside body.new }
    ensures takes { Takes (set_field (left_in body.old)) result (left_in body.new) }
{
    let number = Number(take_u64(body)?);
    let name = take_short(alloc, body, Text::Name, None)?;
    Ok((number, name))
}

fn take_table(alloc: Global, body: &mut Body<'_>) -> Result<Branches, RecordFault>
    requires inside { IsInside body.old }
    ensures inside { IsInside body.new }
    ensures takes { Takes (rows_field (left_in body.old)) result (left_in body.new) }
{
    let count = take_table_length(body)?;
    take_rows(alloc, body, count)
}

fn take_name_set(alloc: Global, body: &mut Body<'_>, tag: bool) -> Result<Record, RecordFault>
    requires inside { IsInside body.old }
    ensures inside { IsInside body.new }
    ensures takes { Takes (set_fields (if tag then tags else branches) (left_in body.old)) result (left_in body.new) }
{
    let (number, name) = take_set(alloc, body)?;
    Ok(if tag {
        Record::TagSet { number, name }
    } else {
        Record::BranchSet { number, name }
    })
}

fn take_name_remove(alloc: Global, body: &mut Body<'_>, tag: bool) -> Result<Record, RecordFault>
    requires inside { IsInside body.old }
    ensures inside { IsInside body.new }
    ensures takes { Takes (remove_fields (if tag then tags else branches) (left_in body.old)) result (left_in body.new) }
{
    let name = take_short(alloc, body, Text::Name, None)?;
    Ok(if tag {
        Record::TagRemove { name }
    } else {
        Record::BranchRemove { name }
    })
}

fn take_name_table(alloc: Global, body: &mut Body<'_>, tag: bool) -> Result<Record, RecordFault>
    requires inside { IsInside body.old }
    ensures inside { IsInside body.new }
    ensures takes { Takes (table_fields (if tag then tags else branches) (left_in body.old)) result (left_in body.new) }
{
    let rows = take_table(alloc, body)?;
    Ok(if tag {
        Record::TagTable(rows)
    } else {
        Record::BranchTable(rows)
    })
}

// The record of a kind.
#[tactic(auto, unfolding(ip_spec::specs::Reading::fields_of, crate::specs::Lists::children_of_bits))]
fn take_record(alloc: Global, kind: u8, body: &mut Body<'_>) -> Result<Record, RecordFault>
    requires inside { IsInside body.old }
    ensures inside { IsInside body.new }
    ensures takes { MatchOption (fields_of kind) (result ≡ Err (fault.Kind kind)) (λ fields. Takes (fields (left_in body.old)) result (left_in body.new)) }
{
    match kind {
        kind::CONTENTS => take_contents(alloc, body),
        kind::LEAF => take_leaf(alloc, body),
        kind::INODE => take_inode(alloc, body),
        kind::COMMIT => take_commit(alloc, body),
        kind::BRANCH_SET => take_name_set(alloc, body, false),
        kind::BRANCH_REMOVE => take_name_remove(alloc, body, false),
        kind::BRANCH_TABLE => take_name_table(alloc, body, false),
        kind::TAG_SET => take_name_set(alloc, body, true),
        kind::TAG_REMOVE => take_name_remove(alloc, body, true),
        kind::TAG_TABLE => take_name_table(alloc, body, true),
        _ => Err(RecordFault::Kind(kind)),
    }
}

// Whether a version of the format has the kind.
fn is_known(version: u32, kind: u8) -> bool
    ensures { result ≡ known version kind }
{
    kind > 0
        && kind
            <= if version >= 2 {
                kind::TAG_TABLE
            } else {
                kind::BRANCH_TABLE
            }
}

fn contents_limit(version: u32) -> u32
    ensures { result ≡ contents_limit version }
{
    if version >= 2 {
        CONTENTS_MAX_VERSION_2 as u32
    } else {
        CONTENTS_MAX as u32
    }
}

// The record whose body these bytes are, all of them.
fn whole_record(alloc: Global, kind: u8, bytes: &[u8]) -> Result<(Record, u64), RecordFault>
    requires { length bytes.now < 2 ^ 32 }
    ensures read { IsRead result (body_of kind bytes.now (fields_of kind)) }
    ensures head { IsErrOf result fault.Memory → IsBehindHead (body_of kind bytes.now (fields_of kind)) }
{
    let mut body = Body {
        left: Cursor::new(bytes),
        end: 5 + bytes.len(),
    };
    let record = take_record(alloc, kind, &mut body)?;
    if body.left.left() > 0 {
        return Err(RecordFault::Form(body.at()));
    }
    Ok((record, 5 + bytes.len() as u64))
}

// What the bytes begin with.
#[tactic(auto, unfolding(ip_spec::specs::Reading::reading))]
fn read_front(alloc: Global, version: u32, bytes: &[u8]) -> Result<(Record, u64), RecordFault>
    ensures read { IsRead result (reading version bytes.now) }
    ensures head { IsErrOf result fault.Memory → IsBehindHead (reading version bytes.now) }
{
    let [kind, rest @ ..] = bytes else {
        return Err(RecordFault::Short);
    };
    if !is_known(version, *kind) {
        return Err(RecordFault::Kind(*kind));
    }
    let mut left = Cursor::new(rest);
    let Some(length) = left.take_u32() else {
        return Err(RecordFault::Short);
    };
    if *kind == kind::CONTENTS && length > contents_limit(version) {
        return Err(RecordFault::Length);
    }
    let Some(body) = left.take_bytes(length as usize) else {
        return Err(RecordFault::Short);
    };
    whole_record(alloc, *kind, body)
}

/// The record at the front of the bytes, in a version of the format, and its length in bytes. What follows it is not looked at.
/// A fault is the first one, at its place in the record: the length before the body, and the fields of the body in their order.
/// Memory is taken for what the record holds alone, and none for a fault found before.
pub fn read_record(alloc: Global, version: u32, bytes: &[u8]) -> Result<(Record, u64), RecordFault>
    ensures read { IsRead result (reading version bytes.now) }
    // Want of memory hides no fault of the head.
    ensures head { IsErrOf result fault.Memory → IsBehindHead (reading version bytes.now) }
    // What is read fits the version, and is what the bytes begin with.
    ensures fits { IfOk result (λ read. Fits version read.0) }
    ensures spelled { IfOk result (λ read. (rest : Bytes) × (bytes.now ≡ spelling read.0 ++ rest)) }
    ensures length { IfOk result (λ read. read.1 ≡ length (spelling read.0)) }
{
    read_front(alloc, version, bytes)
}

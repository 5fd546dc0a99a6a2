// Copies of records that have a name.
ghost use Rattle.std.specs.Prelude.{◌≡◌, ◌++◌, [], length, take, IfOk, IsSome};
ghost use Rattle.ip_spec.specs.Record.{name_of};
ghost use Rattle.ip_spec.specs.declared.record.Record.TheVariants as Record;

use ip_base::{Info, Items, Memory};
use ip_spec::record::{
    CommitRecord, InodeChild, InodeChildren, LeafEntries, LeafEntry, Parent, Parents, Record,
};
use std::alloc::Global;

/// A record that has a name once more. Those of branches and tags have none, and no reference leads to them.
pub fn copy_record(alloc: Global, rec: &Record) -> Result<Record, Memory>
    requires { IsSome (name_of rec.now) }
    ensures { IfOk result (λ copy. copy ≡ rec.now) }
{
    match rec {
        Record::Contents(bytes) => Ok(Record::Contents(bytes.copy(alloc)?)),
        Record::Leaf(entries) => Ok(Record::Leaf(copy_entries(alloc, entries.as_slice())?)),
        Record::Inode { depth, children } => {
            let children = copy_children(alloc, children.as_slice())?;
            Ok(Record::Inode {
                depth: *depth,
                children,
            })
        }
        Record::Commit(c) => Ok(Record::Commit(copy_commit(alloc, c)?)),
        _ => unreachable!(),
    }
}

fn copy_commit(alloc: Global, c: &CommitRecord) -> Result<CommitRecord, Memory>
    ensures { IfOk result (λ copy. copy ≡ c.now) }
{
    let parents = copy_parents(alloc, c.parents.as_slice())?;
    let info = copy_info(alloc, &c.info)?;
    Ok(CommitRecord {
        number: c.number,
        root_name: c.root_name,
        root_at: c.root_at,
        parents,
        info,
    })
}

fn copy_info(alloc: Global, info: &Info) -> Result<Info, Memory>
    ensures { IfOk result (λ copy. copy ≡ info.now) }
{
    let author = info.author.copy(alloc)?;
    let message = info.message.copy(alloc)?;
    Ok(Info {
        date: info.date,
        author,
        message,
    })
}

fn copy_entries(alloc: Global, entries: &[LeafEntry]) -> Result<LeafEntries, Memory>
    ensures { IfOk result (λ copy. copy ≡ entries.now) }
{
    let mut copy = Items::of(Vec::with_capacity(alloc, entries.len())?);
    for entry in entries {
        copy.push(LeafEntry {
            step: entry.step.copy(alloc)?,
            kind: entry.kind,
            height: entry.height,
            name: entry.name,
            at: entry.at,
        })?;
    }
    Ok(copy)
}

fn copy_children(alloc: Global, children: &[InodeChild]) -> Result<InodeChildren, Memory>
    ensures { IfOk result (λ copy. copy ≡ children.now) }
{
    let mut copy = Items::of(Vec::with_capacity(alloc, children.len())?);
    for child in children {
        copy.push(InodeChild {
            index: child.index,
            count: child.count,
            height: child.height,
            name: child.name,
            at: child.at,
        })?;
    }
    Ok(copy)
}

fn copy_parents(alloc: Global, parents: &[Parent]) -> Result<Parents, Memory>
    ensures { IfOk result (λ copy. copy ≡ parents.now) }
{
    let mut copy = Items::of(Vec::with_capacity(alloc, parents.len())?);
    for parent in parents {
        copy.push(Parent {
            number: parent.number,
            name: parent.name,
        })?;
    }
    Ok(copy)
}

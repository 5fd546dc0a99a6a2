// Records as bytes.
ghost use Rattle.std.specs.Prelude.{◌≡◌, ◌++◌, ◌+◌, ◌*◌, ◌≤◌, ◌<◌, ◌^◌, ℕ, length, flat_map, All, OnOk, OnErr};
ghost use Rattle.ip_base.specs.declared.limit.TheConstants.{STEP_BYTES_MAX, NAME_MAX, AUTHOR_MAX, MESSAGE_MAX};
ghost use Rattle.ip_object.specs.Lists.{Extends, commit_of};
ghost use Rattle.ip_spec.specs.declared.record.Record.TheVariants as Record;
ghost use Rattle.ip_spec.specs.Record.{IsCommitRecord, kind_of, IsLeafEntry, IsBranchName, IsU64, Fits, spelling, body, short_text, long_text, info_spelling, entry_spelling, child_spelling, u64, bitmap};

use ip_base::{Hash, Info, Memory, Number, put_bytes, put_u8, put_u16, put_u32, put_u64};
use ip_spec::kind;
use ip_spec::record::{Branch, InodeChild, LeafEntry, Parent, Record, Ref};

#[tactic(auto, using(crate::proofs::PutLemmas::extends_same, crate::proofs::PutLemmas::extends_on))]
fn put_short(text: &[u8], out: &mut Vec<u8>) -> Result<(), Memory>
    requires { length text.now ≤ STEP_BYTES_MAX }
    ensures ok { OnOk result (out.new.items ≡ out.old.items ++ short_text text.now) }
    ensures err { OnErr result (Extends out.old.items out.new.items) }
{
    put_u8(out, text.len() as u8)?;
    put_bytes(out, text)
}

#[tactic(auto, using(crate::proofs::PutLemmas::extends_same, crate::proofs::PutLemmas::extends_on))]
fn put_long(text: &[u8], out: &mut Vec<u8>) -> Result<(), Memory>
    requires { length text.now ≤ MESSAGE_MAX }
    ensures ok { OnOk result (out.new.items ≡ out.old.items ++ long_text text.now) }
    ensures err { OnErr result (Extends out.old.items out.new.items) }
{
    put_u16(out, text.len() as u16)?;
    put_bytes(out, text)
}

#[tactic(auto, using(crate::proofs::PutLemmas::extends_same, crate::proofs::PutLemmas::extends_on))]
fn put_info(info: &Info, out: &mut Vec<u8>) -> Result<(), Memory>
    requires author { length info.now.author ≤ AUTHOR_MAX }
    requires message { length info.now.message ≤ MESSAGE_MAX }
    ensures ok { OnOk result (out.new.items ≡ out.old.items ++ info_spelling info.now) }
    ensures err { OnErr result (Extends out.old.items out.new.items) }
{
    put_u64(out, info.date)?;
    put_short(info.author.as_slice(), out)?;
    put_long(info.message.as_slice(), out)
}

#[tactic(auto, using(crate::proofs::PutLemmas::extends_same, crate::proofs::PutLemmas::extends_on))]
fn put_entry(entry: &LeafEntry, out: &mut Vec<u8>) -> Result<(), Memory>
    requires { length entry.now.step ≤ STEP_BYTES_MAX }
    ensures ok { OnOk result (out.new.items ≡ out.old.items ++ entry_spelling entry.now) }
    ensures err { OnErr result (Extends out.old.items out.new.items) }
{
    put_short(entry.step.bytes(), out)?;
    put_u8(out, entry.kind)?;
    put_u8(out, entry.height)?;
    put_bytes(out, entry.name.as_slice())?;
    put_u64(out, entry.at)
}

#[tactic(auto, using(crate::proofs::PutLemmas::extends_same, crate::proofs::PutLemmas::extends_on))]
fn put_child(child: &InodeChild, out: &mut Vec<u8>) -> Result<(), Memory>
    ensures ok { OnOk result (out.new.items ≡ out.old.items ++ child_spelling child.now) }
    ensures err { OnErr result (Extends out.old.items out.new.items) }
{
    put_u32(out, child.count)?;
    put_u8(out, child.height)?;
    put_bytes(out, child.name.as_slice())?;
    put_u64(out, child.at)
}

#[tactic(auto, using(crate::proofs::PutLemmas::put_more, crate::proofs::PutLemmas::put_none, crate::proofs::PutLemmas::extends_same, crate::proofs::PutLemmas::extends_on))]
fn put_entries(entries: &[LeafEntry], out: &mut Vec<u8>) -> Result<(), Memory>
    requires { All IsLeafEntry entries.now }
    ensures ok { OnOk result (out.new.items ≡ out.old.items ++ flat_map entry_spelling entries.now) }
    ensures err { OnErr result (Extends out.old.items out.new.items) }
{
    for entry in entries {
        put_entry(entry, out)?;
    }
    Ok(())
}

#[tactic(auto, using(crate::proofs::PutLemmas::put_more, crate::proofs::PutLemmas::put_none, crate::proofs::PutLemmas::extends_same, crate::proofs::PutLemmas::extends_on))]
fn put_children(children: &[InodeChild], out: &mut Vec<u8>) -> Result<(), Memory>
    ensures ok { OnOk result (out.new.items ≡ out.old.items ++ flat_map child_spelling children.now) }
    ensures err { OnErr result (Extends out.old.items out.new.items) }
{
    for child in children {
        put_child(child, out)?;
    }
    Ok(())
}

#[tactic(auto, using(crate::proofs::PutLemmas::put_more, crate::proofs::PutLemmas::put_none, crate::proofs::PutLemmas::extends_same, crate::proofs::PutLemmas::extends_on))]
fn put_parents(parents: &[Parent], out: &mut Vec<u8>) -> Result<(), Memory>
    ensures ok { OnOk result (out.new.items ≡ out.old.items ++ flat_map (λ p. u64 p.number ++ p.name) parents.now) }
    ensures err { OnErr result (Extends out.old.items out.new.items) }
{
    for parent in parents {
        put_u64(out, parent.number.0)?;
        put_bytes(out, parent.name.as_slice())?;
    }
    Ok(())
}

#[tactic(auto, using(crate::proofs::PutLemmas::put_more, crate::proofs::PutLemmas::put_none, crate::proofs::PutLemmas::extends_same, crate::proofs::PutLemmas::extends_on))]
fn put_rows(rows: &[Branch], out: &mut Vec<u8>) -> Result<(), Memory>
    requires { All (λ row. IsBranchName row.name × IsU64 row.number) rows.now }
    ensures ok { OnOk result (out.new.items ≡ out.old.items ++ flat_map (λ row. short_text row.name ++ u64 row.number) rows.now) }
    ensures err { OnErr result (Extends out.old.items out.new.items) }
{
    for row in rows {
        put_short(row.name.as_slice(), out)?;
        put_u64(out, row.number.0)?;
    }
    Ok(())
}

// The bits of the children's indexes.
pub fn bitmap_of(children: &[InodeChild]) -> u32
    requires each { All (λ c. c.index < 32) children.now }
    requires small { bitmap children.now < 2 ^ 32 }
    ensures { result ≡ bitmap children.now }
{
    let mut bits = 0;
    for child in children {
        bits += 1 << child.index;
    }
    bits
}

#[tactic(auto, unfolding(ip_spec::specs::Record::body), using(crate::proofs::PutLemmas::extends_same, crate::proofs::PutLemmas::extends_on))]
fn put_commit(
    number: Number,
    root: &Ref,
    parents: &[Parent],
    info: &Info,
    out: &mut Vec<u8>,
) -> Result<(), Memory>
    requires { IsCommitRecord (commit_of number root.now parents.now info.now) }
    ensures ok { OnOk result (out.new.items ≡ out.old.items ++ body (Record.Commit (commit_of number root.now parents.now info.now))) }
    ensures err { OnErr result (Extends out.old.items out.new.items) }
{
    put_u64(out, number.0)?;
    put_bytes(out, root.name.as_slice())?;
    put_u64(out, root.at)?;
    put_u8(out, parents.len() as u8)?;
    put_parents(parents, out)?;
    put_info(info, out)
}

#[tactic(auto, unfolding(ip_spec::specs::Record::body), using(crate::proofs::PutLemmas::extends_same, crate::proofs::PutLemmas::extends_on))]
fn put_body(rec: &Record, out: &mut Vec<u8>) -> Result<(), Memory>
    ghost version: { ℕ }
    requires { Fits version rec.now }
    ensures ok { OnOk result (out.new.items ≡ out.old.items ++ body rec.now) }
    ensures err { OnErr result (Extends out.old.items out.new.items) }
{
    match rec {
        Record::Contents(bytes) => put_bytes(out, bytes.as_slice()),
        Record::Leaf(entries) => {
            put_u32(out, entries.len() as u32)?;
            put_entries(entries.as_slice(), out)
        }
        Record::Inode { depth, children } => {
            put_u8(out, *depth)?;
            put_u32(out, bitmap_of(children.as_slice()))?;
            put_children(children.as_slice(), out)
        }
        Record::Commit(c) => {
            let root = Ref {
                at: c.root_at,
                name: c.root_name,
                kind: kind::DIRECTORY,
            };
            put_commit(c.number, &root, c.parents.as_slice(), &c.info, out)
        }
        Record::BranchSet { number, name } | Record::TagSet { number, name } => {
            put_u64(out, number.0)?;
            put_short(name.as_slice(), out)
        }
        Record::BranchRemove { name } | Record::TagRemove { name } => {
            put_short(name.as_slice(), out)
        }
        Record::BranchTable(rows) | Record::TagTable(rows) => {
            put_u16(out, rows.len() as u16)?;
            put_rows(rows.as_slice(), out)
        }
    }
}

/// The number of a record's kind.
pub fn kind_of(rec: &Record) -> u8
    ensures { result ≡ kind_of rec.now }
{
    match rec {
        Record::Contents(_) => kind::CONTENTS,
        Record::Leaf(_) => kind::LEAF,
        Record::Inode { .. } => kind::INODE,
        Record::Commit(_) => kind::COMMIT,
        Record::BranchSet { .. } => kind::BRANCH_SET,
        Record::BranchRemove { .. } => kind::BRANCH_REMOVE,
        Record::BranchTable(_) => kind::BRANCH_TABLE,
        Record::TagSet { .. } => kind::TAG_SET,
        Record::TagRemove { .. } => kind::TAG_REMOVE,
        Record::TagTable(_) => kind::TAG_TABLE,
    }
}

// How many bytes the spelling will take, so that room is taken once. It is no more than a hint.
fn spelled_length(rec: &Record) -> usize {
    let body = match rec {
        Record::Contents(bytes) => bytes.len(),
        Record::Leaf(entries) => {
            let mut length = 4usize;
            for entry in entries.as_slice() {
                length = length
                    .saturating_add(entry.step.bytes().len())
                    .saturating_add(43);
            }
            length
        }
        Record::Inode { children, .. } => children.len().saturating_mul(45).saturating_add(5),
        Record::Commit(c) => c
            .parents
            .len()
            .saturating_mul(40)
            .saturating_add(c.info.author.len())
            .saturating_add(c.info.message.len())
            .saturating_add(60),
        Record::BranchSet { name, .. } | Record::TagSet { name, .. } => name
            .len()
            .saturating_add(9),
        Record::BranchRemove { name } | Record::TagRemove { name } => name.len().saturating_add(1),
        Record::BranchTable(rows) | Record::TagTable(rows) => rows_length(rows.as_slice()),
    };
    body.saturating_add(5)
}

fn rows_length(rows: &[Branch]) -> usize {
    let mut length = 2usize;
    for row in rows {
        length = length.saturating_add(row.name.len()).saturating_add(9);
    }
    length
}

/// Puts a record's spelling behind what is there: its kind, the length of its body in bytes, and the body. The record is within the
/// bounds of some version of the format. Where memory is refused, a part of the spelling may stand there.
#[tactic(auto, unfolding(ip_spec::specs::Record::spelling), using(crate::proofs::PutLemmas::extends_same, crate::proofs::PutLemmas::extends_on))]
pub fn encode_into(rec: &Record, out: &mut Vec<u8>) -> Result<(), Memory>
    ghost version: { ℕ }
    requires { Fits version rec.now }
    ensures ok { OnOk result (out.new.items ≡ out.old.items ++ spelling rec.now) }
    ensures err { OnErr result (Extends out.old.items out.new.items) }
{
    out.reserve(spelled_length(rec))?;
    let start = out.len();
    put_bytes(out, &[kind_of(rec), 0, 0, 0, 0])?;
    put_body(rec, out)?;
    let length = (out.len() - start - 5) as u32;
    out[start + 1..start + 5].copy_from_slice(&length.to_le_bytes());
    Ok(())
}

/// Puts the spelling of a record of contents behind what is there, as `encode_into` does, from contents that stay where they are. Where
/// memory is refused, a part of the spelling may stand there.
#[tactic(auto, unfolding(ip_spec::specs::Record::body, ip_spec::specs::Record::spelling), using(crate::proofs::PutLemmas::extends_same, crate::proofs::PutLemmas::extends_on))]
pub fn put_contents(bytes: &[u8], out: &mut Vec<u8>) -> Result<(), Memory>
    requires { length bytes.now < 2 ^ 32 }
    ensures ok { OnOk result (out.new.items ≡ out.old.items ++ spelling (Record.Contents bytes.now)) }
    ensures err { OnErr result (Extends out.old.items out.new.items) }
{
    out.reserve(bytes.len() + 5)?;
    put_u8(out, kind::CONTENTS)?;
    put_u32(out, bytes.len() as u32)?;
    put_bytes(out, bytes)
}

/// Puts the spelling of a commit's record behind what is there, as `encode_into` does, from parents and an info that stay where they are.
/// Where memory is refused, a part of the spelling may stand there.
#[tactic(auto, unfolding(ip_spec::specs::Record::spelling), using(crate::proofs::PutLemmas::extends_same, crate::proofs::PutLemmas::extends_on))]
pub fn encode_commit(
    number: Number,
    root: &Ref,
    parents: &[Parent],
    info: &Info,
    out: &mut Vec<u8>,
) -> Result<(), Memory>
    requires { IsCommitRecord (commit_of number root.now parents.now info.now) }
    ensures ok { OnOk result (out.new.items ≡ out.old.items ++ spelling (Record.Commit (commit_of number root.now parents.now info.now))) }
    ensures err { OnErr result (Extends out.old.items out.new.items) }
{
    let length = 60 + 40 * parents.len() + info.author.len() + info.message.len();
    out.reserve(length + 5)?;
    put_u8(out, kind::COMMIT)?;
    put_u32(out, length as u32)?;
    put_commit(number, root, parents, info, out)
}

/// Puts the spelling of the record that sets a branch to a commit behind what is there, as `encode_into` does, from a name that stays where it
/// is. Where memory is refused, a part of the spelling may stand there.
#[tactic(auto, unfolding(ip_spec::specs::Record::body, ip_spec::specs::Record::spelling), using(crate::proofs::PutLemmas::extends_same, crate::proofs::PutLemmas::extends_on))]
pub fn encode_branch(number: Number, name: &[u8], out: &mut Vec<u8>) -> Result<(), Memory>
    requires { length name.now ≤ NAME_MAX }
    ensures ok { OnOk result (out.new.items ≡ out.old.items ++ spelling (Record.BranchSet number name.now)) }
    ensures err { OnErr result (Extends out.old.items out.new.items) }
{
    out.reserve(name.len() + 14)?;
    put_u8(out, kind::BRANCH_SET)?;
    put_u32(out, name.len() as u32 + 9)?;
    put_u64(out, number.0)?;
    put_short(name, out)
}

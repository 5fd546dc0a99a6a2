// Fetching contents and the records of directories, and what is lent of these.
ghost use Rattle.std.specs.Prelude.{◌≡◌, ℕ, Option, Some, IsTrue, IfOk, IfErr, IsErrOf, MatchResult};
ghost use Rattle.ip_ground.specs.Counts.{Counts};
ghost use Rattle.ip_space.specs.declared.fault.FetchFault.TheVariants as FetchFault;
ghost use Rattle.ip_tree.specs.Faults.{counted_tree};
ghost use Rattle.ip_space.specs.SpaceView.{IsReadable, records_of};
ghost use Rattle.ip_spec.specs.Record.{Fits, reference_kind};
ghost use Rattle.ip_spec.specs.Shape.{Entries};
ghost use Rattle.ip_spec.specs.Tree.{Tree as Map, contents};
ghost use Rattle.ip_spec.specs.declared.kind.TheConstants as kinds;
ghost use Rattle.ip_spec.specs.declared.record.Record.{Record};
ghost use Rattle.ip_spec.specs.declared.record.Record.TheVariants as Record;
ghost use Rattle.ip_tree.specs.Reads.{IsOver, IsPartRecord, IsPartRef, IsFetchFault, IsFree, Reaches, Looks, IsCause, as_content, lent_at, record_of};
ghost use Rattle.ip_tree.specs.declared.tree.TreeFault.TheVariants as TreeFault;

use crate::tree::TreeFault;
use ip_base::Blob;
use ip_ground::Ground;
use ip_space::Space;
use ip_spec::kind;
use ip_spec::record::{InodeChild, InodeChildren, LeafEntries, LeafEntry, Record, Ref};

/// What the record of a directory holds, or of a part of one.
#[derive(Drop)]
pub enum Content {
    Leaf(LeafEntries),
    Inode { depth: u8, children: InodeChildren },
}

/// What the record of a directory holds, or of a part of one, where it is lent.
#[derive(Clone, Copy)]
pub enum LentContent<'a> {
    Leaf(&'a [LeafEntry]),
    Inode {
        depth: u8,
        children: &'a [InodeChild],
    },
}

impl Content {
    ghost use Rattle.ip_tree.specs.Reads.{as_content};

    /// The same, lent.
    pub fn lent(&self) -> LentContent<'_>
        ensures { as_content result ≡ self.now }
    {
        match self {
            Content::Leaf(entries) => LentContent::Leaf(entries.as_slice()),
            Content::Inode { depth, children } => LentContent::Inode {
                depth: *depth,
                children: children.as_slice(),
            },
        }
    }
}

/// Brings the record of a directory, or of a part of one, as `Space::bring` does: then `lent_part` lends what it holds. It is asked for by that kind, whatever the reference says,
/// which others may have written.
pub fn bring_part<G: Ground>(
    outside: &mut G,
    space: &mut Space,
    reference: &Ref,
) -> Result<Option<Record>, TreeFault>
    ensures part { IsTrue G.tells → (records : ℕ → Option Record) (depth : ℕ) (es : Entries) → IsOver (G.told outside.old) space.old records → IsPartRef records depth reference.now es
        → MatchResult result (λ found. records reference.now.at ≡ lent_at space.new reference.now.at found) IsFree }
    // over any records
    ensures any { IsTrue G.tells → IsReadable (G.told outside.old) space.old → IfOk result (λ found. records_of (G.told outside.old) space.old reference.now.at ≡ lent_at space.new reference.now.at found) }
    ensures is { IfOk result (λ found. IsPartRecord (lent_at space.new reference.now.at found)) }
    ensures looks { Looks G.tells (G.told outside.old) (G.told outside.new) space.old space.new }
    ensures counts { Counts counted_tree result (G.counts_of outside.old) (G.counts_of outside.new) }
    ensures causes { IfErr result (IsCause G.tells (G.told outside.old) space.old) }
    ensures fault { IfErr result IsFetchFault }
{
    let found = space.bring(
        outside,
        Ref {
            kind: kind::DIRECTORY,
            ..*reference
        },
    )?;
    Ok(found)
}

/// What the record holds that `bring_part` brought for a reference at this offset.
pub fn lent_part<'a>(space: &'a Space, at: u64, found: &'a Option<Record>) -> LentContent<'a>
    requires { IsPartRecord (lent_at space.now at found.now) }
    ensures is { lent_at space.now at found.now ≡ Some (record_of (as_content result)) }
    ensures bounds { (version : ℕ) × Fits version (record_of (as_content result)) }
{
    match space.lent(at, found) {
        Record::Leaf(entries) => LentContent::Leaf(entries.as_slice()),
        Record::Inode { depth, children } => LentContent::Inode {
            depth: *depth,
            children: children.as_slice(),
        },
        _ => unreachable!(),
    }
}

/// What the record of a directory holds, or of a part of one. It is asked for by that kind, whatever the reference says, which others may have written.
pub fn fetch_part<G: Ground>(
    outside: &mut G,
    space: &mut Space,
    reference: &Ref,
) -> Result<Content, TreeFault>
    ensures part { IsTrue G.tells → (records : ℕ → Option Record) (depth : ℕ) (es : Entries) → IsOver (G.told outside.old) space.old records → IsPartRef records depth reference.now es
        → MatchResult result (λ content. records reference.now.at ≡ Some (record_of content)) IsFree }
    // over any records
    ensures any { IsTrue G.tells → IsReadable (G.told outside.old) space.old → IfOk result (λ content. records_of (G.told outside.old) space.old reference.now.at ≡ Some (record_of content)) }
    ensures bounds { IfOk result (λ content. (version : ℕ) × Fits version (record_of content)) }
    ensures looks { Looks G.tells (G.told outside.old) (G.told outside.new) space.old space.new }
    ensures counts { Counts counted_tree result (G.counts_of outside.old) (G.counts_of outside.new) }
    ensures causes { IfErr result (IsCause G.tells (G.told outside.old) space.old) }
    ensures fault { IfErr result IsFetchFault }
{
    let found = space.fetch(
        outside,
        Ref {
            kind: kind::DIRECTORY,
            ..*reference
        },
    )?;
    Ok(content_of(found))
}

// What a record holds that is a directory's, or a part's of one.
fn content_of(found: Record) -> Content
    requires { reference_kind found ≡ kinds.DIRECTORY }
    ensures { record_of result ≡ found }
{
    match found {
        Record::Leaf(entries) => Content::Leaf(entries),
        Record::Inode { depth, children } => Content::Inode { depth, children },
        _ => unreachable!(),
    }
}

/// The contents in the record at a reference. They are asked for by that kind.
pub fn fetch_contents<G: Ground>(
    outside: &mut G,
    space: &mut Space,
    reference: &Ref,
) -> Result<Blob, TreeFault>
    ensures contents { IsTrue G.tells → (records : ℕ → Option Record) (t : Map) → IsOver (G.told outside.old) space.old records → Reaches records reference.now t → reference.now.kind ≡ kinds.CONTENTS
        → MatchResult result (λ bytes. t ≡ contents bytes) IsFree }
    // over any records
    ensures any { IsTrue G.tells → IsReadable (G.told outside.old) space.old → IfOk result (λ bytes. records_of (G.told outside.old) space.old reference.now.at ≡ Some (Record.Contents bytes)) }
    ensures looks { Looks G.tells (G.told outside.old) (G.told outside.new) space.old space.new }
    ensures counts { Counts counted_tree result (G.counts_of outside.old) (G.counts_of outside.new) }
    ensures causes { IfErr result (IsCause G.tells (G.told outside.old) space.old) }
    ensures fault { IfErr result IsFetchFault }
{
    let found = space.fetch(
        outside,
        Ref {
            kind: kind::CONTENTS,
            ..*reference
        },
    )?;
    Ok(bytes_of(found))
}

// The bytes of a record that is contents.
fn bytes_of(found: Record) -> Blob
    requires { reference_kind found ≡ kinds.CONTENTS }
    ensures { found ≡ Record.Contents result }
{
    match found {
        Record::Contents(bytes) => bytes,
        _ => unreachable!(),
    }
}

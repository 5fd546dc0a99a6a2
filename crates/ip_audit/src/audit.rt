// The audit of records.
ghost use Rattle.std.specs.Prelude.{◌≡◌, ◌≤◌, ℕ, None, Some, [], ◌∷◌, ◌++◌, All, IsTrue, IsFalse, IfSome, length, map, take, OnOk, OnErr, IsErrOf, option_map, option_copied};
ghost use Rattle.ip_spec.specs.declared.record.Record.TheVariants as Record;
ghost use Rattle.ip_spec.specs.Record.{Fits, IsLeafEntry, name_of};
ghost use Rattle.ip_spec.specs.TreeAt.{Records};
ghost use Rattle.ip_image.specs.Standing.{RecordFits, commits_in};
ghost use Rattle.ip_audit.specs.Audits.{Audited, IsBeyond, commit_name, memory_of};
ghost use Rattle.ip_audit.specs.Changes.{KeepsBesides, RemembersSame, AddsName, CommitHolds, IsNew};
ghost use Rattle.ip_audit.specs.Memory.{EntryPasses, ChildPasses, LeafPasses, InodePasses, Passes, IsMore, RootIs, Part as PartOf, kept_part, leaf_part, inode_part, ways};
ghost use Rattle.ip_audit.specs.View.{kept_is, look_of, part_of, places_in};
ghost use Rattle.ip_audit.specs.declared.audit.AuditFault.TheVariants as AuditFault;

use crate::Names;
use crate::kept::{DIRECTORY_ENTRIES, Kept, LEAF_ENTRIES, Part};
use crate::measures::{counted, leaf_places};
use crate::parents::{all_distinct, all_earlier, all_named};
use ip_base::{Hash, Memory};
use ip_image::terms::Terms;
use ip_object::name_of_record;
use ip_shape::height::{inode_height, leaf_height};
use ip_shape::places::{DEEPEST, Places};
use ip_spec::kind::{CONTENTS, DIRECTORY};
use ip_spec::record::{CommitRecord, InodeChild, LeafEntry, Record};
use std::alloc::Global;
use std::collections::BTreeMap;

/// Why a record was not taken. Nothing was changed.
#[derive(Clone, Copy, Debug, PartialEq, Eq)]
pub enum AuditFault {
    /// It breaks what a record must hold behind those that were taken.
    Fails,
    Memory,
}

impl From<Memory> for AuditFault {
    ghost from_gives = { λ _ e. e ≡ AuditFault.Memory };

    fn from(_: Memory) -> Self {
        AuditFault::Memory
    }
}

/// What is remembered of the records that were taken: of contents and of parts of directories by offset, and the names
/// of the commits.
#[derive(Drop)]
pub struct Audit {
    alloc: Global,
    pub terms: Terms,
    kept: BTreeMap<u64, Kept>,
    names: Names,
}

impl Audit {
    /// No record was taken.
    pub fn new(alloc: Global, terms: Terms) -> Self
        ensures terms { result.terms ≡ terms }
        ensures audited { Audited result [] }
    {
        Audit {
            alloc,
            terms,
            kept: BTreeMap::new(alloc),
            names: Names::new(alloc),
        }
    }

    /// Takes the record at an offset, which lies beyond those that were taken.
    pub fn take(&mut self, at: u64, rec: &Record) -> Result<(), AuditFault>
        requires bounds { (version : ℕ) × Fits version rec.now }
        ensures fits { (taken : Records) → Audited self.old taken → IsBeyond at taken → OnOk result (RecordFits self.old.terms taken at rec.now) }
        ensures goes_on { (taken : Records) → Audited self.old taken → IsBeyond at taken → OnOk result (Audited self.new (taken ++ (at, rec.now) ∷ [])) }
        ensures fails { IsErrOf result AuditFault.Fails → (taken : Records) → Audited self.old taken → IsBeyond at taken → RecordFits self.old.terms taken at rec.now → ⊥ }
        // Want of memory hides no fault of the record.
        ensures memory { IsErrOf result AuditFault.Memory → (taken : Records) → Audited self.old taken → IsBeyond at taken → RecordFits self.old.terms taken at rec.now }
        ensures same { (taken : Records) → Audited self.old taken → OnErr result (Audited self.new taken) }
        ensures terms { self.new.terms ≡ self.old.terms }
    {
        match named(rec) {
            Some(name) => self.take_named(at, rec, name),
            None => Ok(()),
        }
    }

    /// The names of the commits that were taken, in the order of their numbers.
    pub fn into_names(self) -> Names
        ensures { (taken : Records) → Audited self taken → result ≡ map commit_name (commits_in taken) }
    {
        self.names
    }

    // A record with a name.
    fn take_named(&mut self, at: u64, rec: &Record, name: Hash) -> Result<(), AuditFault>
        requires bounds { (version : ℕ) × Fits version rec.now }
        requires name { name_of rec.now ≡ Some name }
        ensures passes { OnOk result (Passes self.old.terms (memory_of self.old) at rec.now) }
        ensures more { look_of self.old.kept at ≡ None → OnOk result (IsMore (memory_of self.old) at rec.now (memory_of self.new)) }
        ensures fails { IsErrOf result AuditFault.Fails → Passes self.old.terms (memory_of self.old) at rec.now → ⊥ }
        ensures memory { IsErrOf result AuditFault.Memory → Passes self.old.terms (memory_of self.old) at rec.now }
        ensures same { OnErr result (RemembersSame self.old self.new) }
        ensures terms { self.new.terms ≡ self.old.terms }
    {
        match rec {
            Record::Contents(_) => self.keep(at, Kept::Contents(name)),
            Record::Leaf(entries) => self.take_leaf(at, entries.as_slice(), name),
            Record::Inode { depth, children } => {
                self.take_inode(at, *depth, children.as_slice(), name)
            }
            Record::Commit(c) => self.take_commit(at, c, name),
            _ => unreachable!(),
        }
    }

    // Remembers contents or a part.
    fn keep(&mut self, at: u64, kept: Kept) -> Result<(), AuditFault>
        ensures kept { OnOk result (KeepsBesides self.old self.new at (kept_is kept)) }
        ensures fails { IsErrOf result AuditFault.Fails → ⊥ }
        ensures same { OnErr result (RemembersSame self.old self.new) }
        ensures terms { self.new.terms ≡ self.old.terms }
    {
        match self.kept.insert(at, kept) {
            Ok(_) => Ok(()),
            Err(_) => Err(AuditFault::Memory),
        }
    }

    // What is remembered at an offset.
    fn find(&self, at: u64) -> Option<&Kept>
        ensures { option_map kept_is (option_copied result) ≡ look_of self.now.kept at }
    {
        self.kept.get(&at)
    }

    // ---- leaves

    fn take_leaf(&mut self, at: u64, entries: &[LeafEntry], name: Hash) -> Result<(), AuditFault>
        requires each { All IsLeafEntry entries.now }
        requires name { name_of (Record.Leaf entries.now) ≡ Some name }
        ensures passes { OnOk result (LeafPasses (look_of self.old.kept) at entries.now) }
        ensures kept { OnOk result (KeepsBesides self.old self.new at (kept_part (leaf_part entries.now))) }
        ensures fails { IsErrOf result AuditFault.Fails → LeafPasses (look_of self.old.kept) at entries.now → ⊥ }
        ensures memory { IsErrOf result AuditFault.Memory → LeafPasses (look_of self.old.kept) at entries.now }
        ensures same { OnErr result (RemembersSame self.old self.new) }
        ensures terms { self.new.terms ≡ self.old.terms }
    {
        if !self.entries_pass(at, entries) {
            return Err(AuditFault::Fails);
        }
        let part = self.leaf_part(entries, name);
        if part.count > LEAF_ENTRIES && part.agreed < DEEPEST {
            return Err(AuditFault::Fails);
        }
        if part.count > DIRECTORY_ENTRIES {
            return Err(AuditFault::Fails);
        }
        self.keep(at, Kept::Part(part))
    }

    fn entries_pass(&self, at: u64, entries: &[LeafEntry]) -> bool
        ensures yes { IsTrue result → All (EntryPasses (look_of self.now.kept) at) entries.now }
        ensures no { IsFalse result → All (EntryPasses (look_of self.now.kept) at) entries.now → ⊥ }
    {
        for entry in entries {
            if !self.entry_passes(at, entry) {
                return false;
            }
        }
        true
    }

    fn entry_passes(&self, at: u64, entry: &LeafEntry) -> bool
        ensures yes { IsTrue result → EntryPasses (look_of self.now.kept) at entry.now }
        ensures no { IsFalse result → EntryPasses (look_of self.now.kept) at entry.now → ⊥ }
    {
        if entry.at >= at {
            return false;
        }
        match self.find(entry.at) {
            None => false,
            Some(Kept::Contents(name)) => {
                entry.kind == CONTENTS && entry.height == 0 && entry.name == *name
            }
            Some(Kept::Part(part)) => {
                entry.kind == DIRECTORY
                    && part.is_whole()
                    && part.count > 0
                    && entry.height == part.height
                    && entry.name == part.name
            }
        }
    }

    fn leaf_part(&self, entries: &[LeafEntry], name: Hash) -> Part
        requires each { All IsLeafEntry entries.now }
        requires name { name_of (Record.Leaf entries.now) ≡ Some name }
        ensures part { part_of result ≡ leaf_part entries.now }
        ensures most { result.agreed ≤ 51 }
    {
        let (first, agreed) = leaf_places(self.alloc, entries);
        Part {
            depth: None,
            count: entries.len() as u64,
            height: leaf_height(entries),
            name,
            first,
            agreed,
        }
    }

    // ---- inodes

    fn take_inode(
        &mut self,
        at: u64,
        depth: u8,
        children: &[InodeChild],
        name: Hash,
    ) -> Result<(), AuditFault>
        requires shallow { depth ≤ 50 }
        requires name { name_of (Record.Inode depth children.now) ≡ Some name }
        ensures passes { OnOk result (InodePasses (look_of self.old.kept) at depth children.now) }
        ensures kept { OnOk result (KeepsBesides self.old self.new at (kept_part (inode_part (look_of self.old.kept) depth children.now))) }
        ensures fails { IsErrOf result AuditFault.Fails → InodePasses (look_of self.old.kept) at depth children.now → ⊥ }
        ensures memory { IsErrOf result AuditFault.Memory → InodePasses (look_of self.old.kept) at depth children.now }
        ensures same { OnErr result (RemembersSame self.old self.new) }
        ensures terms { self.new.terms ≡ self.old.terms }
    {
        let Some(first) = self.first_places(depth, children) else {
            return Err(AuditFault::Fails);
        };
        if !self.children_pass(at, &first, depth, children) {
            return Err(AuditFault::Fails);
        }
        let Some(count) = counted(children) else {
            return Err(AuditFault::Fails);
        };
        if count <= LEAF_ENTRIES {
            return Err(AuditFault::Fails);
        }
        let part = Part {
            depth: Some(depth),
            count,
            height: inode_height(children),
            name,
            first,
            agreed: depth,
        };
        self.keep(at, Kept::Part(part))
    }

    // The places of a step in the first child of an inode, where all its steps agree in those above the depth.
    fn first_places(&self, depth: u8, children: &[InodeChild]) -> Option<Places>
        ensures some { IfSome result (λ p. ways (look_of self.now.kept) depth children.now ≡ take depth (places_in p)) }
        ensures none { result ≡ None → (at : ℕ) → InodePasses (look_of self.now.kept) at depth children.now → ⊥ }
    {
        if children.is_empty() {
            return None;
        }
        match self.find_part(children[0].at) {
            Some(part) => {
                if part.agreed < depth {
                    None
                } else {
                    Some(part.first)
                }
            }
            None => None,
        }
    }

    fn find_part(&self, at: u64) -> Option<Part>
        ensures some { IfSome result (λ p. look_of self.now.kept at ≡ Some (kept_part (part_of p))) }
        ensures none { result ≡ None → (p : PartOf) → look_of self.now.kept at ≡ Some (kept_part p) → ⊥ }
    {
        match self.find(at) {
            Some(Kept::Part(part)) => Some(*part),
            Some(Kept::Contents(_)) => None,
            None => None,
        }
    }

    fn children_pass(&self, at: u64, above: &Places, depth: u8, children: &[InodeChild]) -> bool
        requires { depth ≤ 50 }
        ensures yes { IsTrue result → All (ChildPasses (look_of self.now.kept) at depth (take depth (places_in above.now))) children.now }
        ensures no { IsFalse result → All (ChildPasses (look_of self.now.kept) at depth (take depth (places_in above.now))) children.now → ⊥ }
    {
        for child in children {
            if !self.child_passes(at, above, depth, child) {
                return false;
            }
        }
        true
    }

    // All but that the counts add up.
    fn child_passes(&self, at: u64, above: &Places, depth: u8, child: &InodeChild) -> bool
        requires { depth ≤ 50 }
        ensures yes { IsTrue result → ChildPasses (look_of self.now.kept) at depth (take depth (places_in above.now)) child.now }
        ensures no { IsFalse result → ChildPasses (look_of self.now.kept) at depth (take depth (places_in above.now)) child.now → ⊥ }
    {
        if child.at >= at {
            return false;
        }
        match self.find(child.at) {
            Some(Kept::Part(part)) => {
                part.is_at(depth + 1)
                    && child.count as u64 == part.count
                    && child.height == part.height
                    && child.name == part.name
                    && part.agrees(above, depth, child.index)
            }
            _ => false,
        }
    }

    // ---- commits

    fn take_commit(&mut self, at: u64, c: &CommitRecord, name: Hash) -> Result<(), AuditFault>
        ensures passes { OnOk result (CommitHolds self.old at c.now) }
        ensures new { OnOk result (IsNew self.old name) }
        ensures kept { OnOk result (AddsName self.old self.new name) }
        ensures fails { IsErrOf result AuditFault.Fails → CommitHolds self.old at c.now → IsNew self.old name → ⊥ }
        ensures memory { IsErrOf result AuditFault.Memory → CommitHolds self.old at c.now × IsNew self.old name }
        ensures same { OnErr result (RemembersSame self.old self.new) }
        ensures terms { self.new.terms ≡ self.old.terms }
    {
        if !self.commit_passes(at, c) {
            return Err(AuditFault::Fails);
        }
        if self.names.place_of(&name).is_some() {
            return Err(AuditFault::Fails);
        }
        self.names.push(name)?;
        Ok(())
    }

    // All but that its name is new.
    fn commit_passes(&self, at: u64, c: &CommitRecord) -> bool
        ensures yes { IsTrue result → CommitHolds self.now at c.now }
        ensures no { IsFalse result → CommitHolds self.now at c.now → ⊥ }
    {
        let number = c.number.get();
        let floor = self.terms.floor;
        if number < floor || number - floor != self.names.len() as u64 {
            return false;
        }
        if c.root_at >= at {
            return false;
        }
        if !self.root_passes(c.root_at, &c.root_name) {
            return false;
        }
        if !all_earlier(self.terms, number, c.parents.as_slice()) {
            return false;
        }
        if !all_distinct(c.parents.as_slice()) {
            return false;
        }
        all_named(floor, &self.names, c.parents.as_slice())
    }

    // A commit's root is a whole directory with its name.
    fn root_passes(&self, at: u64, name: &Hash) -> bool
        ensures yes { IsTrue result → RootIs (look_of self.now.kept at) name.now }
        ensures no { IsFalse result → RootIs (look_of self.now.kept at) name.now → ⊥ }
    {
        match self.find(at) {
            Some(Kept::Part(part)) => part.is_whole() && *name == part.name,
            Some(Kept::Contents(_)) => false,
            None => false,
        }
    }
}

// The name of a record; those of branches and tags have none.
fn named(rec: &Record) -> Option<Hash>
    requires { (version : ℕ) × Fits version rec.now }
    ensures { result ≡ name_of rec.now }
{
    name_of_record(rec)
}

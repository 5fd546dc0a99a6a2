// What a commit appends.
ghost use Rattle.std.specs.Prelude.{◌≡◌, ◌+◌, ◌<◌, ◌≤◌, ℕ, length, Option, None, IsTrue, IfOk, IfErr, MatchResult};
ghost use Rattle.ip_ground.specs.Counts.{Counts};
ghost use Rattle.ip_base.specs.declared.limit.TheConstants.{OFFSET_MAX};
ghost use Rattle.ip_save.specs.Batches.{AreFields, HasShortContents, IsBatch, IsFirst, IsSaveFault, fields_told};
ghost use Rattle.ip_save.specs.Reused.{IsSaveCause, IsUnfetched, counted_save};
ghost use Rattle.ip_spec.specs.declared.record.Record.{Record};
ghost use Rattle.ip_spec.specs.Record.{IsHash};
ghost use Rattle.ip_spec.specs.View.{View};
ghost use Rattle.ip_tree.specs.Reads.{IsOver, Looks};
ghost use Rattle.ip_tree.specs.TreeView.{IsView};

use crate::fresh::find_fresh;
use crate::lay::put_root;
use crate::measure::room_for;
use crate::places::{place_fresh, put_each};
use crate::records::{put_branch, put_commit};
use crate::tally::tally_root;
use ip_base::limit::OFFSET_MAX;
use ip_base::{Blob, Hash, Info, Limit, Memory, Number};
use ip_ground::Ground;
use ip_space::{FetchFault, Space};
use ip_spec::record::{Parents, Ref};
use ip_tree::Tree;
use std::alloc::{AllocError, Global};

/// What a commit record and its branch record are made of, besides the tree.
#[derive(Drop)]
pub struct CommitFields {
    pub number: Number,
    pub parents: Parents,
    pub info: Info,
    pub branch: Blob,
}

/// Why there is no batch.
#[derive(Clone, Copy, Debug, PartialEq, Eq)]
pub enum SaveFault {
    /// The tree breaks a limit of its own: contents, depth or entries.
    Limit(Limit),
    /// The records would pass the greatest end. The commit would have this name, wherever they lay.
    Space(Hash),
    /// A record that the other tree refers to was not read.
    Fetch(FetchFault),
    /// Want of memory. The call may be made again.
    Memory,
}

impl From<Memory> for SaveFault {
    ghost use Rattle.std.specs.Prelude.{◌≡◌};
    ghost use Rattle.ip_save.specs.declared.batch.SaveFault.TheVariants as SaveFault;

    ghost from_gives = { λ _ e. e ≡ SaveFault.Memory };

    fn from(_: Memory) -> Self {
        SaveFault::Memory
    }
}

impl From<AllocError> for SaveFault {
    ghost use Rattle.std.specs.Prelude.{◌≡◌};
    ghost use Rattle.ip_save.specs.declared.batch.SaveFault.TheVariants as SaveFault;

    ghost from_gives = { λ _ e. e ≡ SaveFault.Memory };

    fn from(_: AllocError) -> Self {
        SaveFault::Memory
    }
}

/// The records that a commit appends, as bytes.
#[derive(Drop)]
pub struct Batch {
    bytes: Vec<u8>,
    root: Ref,
    name: Hash,
    commit_at: u64,
    end: u64,
}

impl Batch {
    /// The records that a commit of this tree appends at the offset `end`: those of the parts that no record is known to spell, new contents
    /// first, then the commit and its branch. Contents that the tree whose root is at the reference `first` has at the same path, and such that an
    /// earlier path has, are not put again: their record is referred to. `first` is the root of the tree of the commit's first parent, if there is one.
    /// Of that tree alone records are fetched.
    pub fn of<G: Ground>(
        alloc: Global,
        outside: &mut G,
        space: &mut Space,
        tree: &Tree,
        fields: &CommitFields,
        first: Option<Ref>,
        end: u64,
    ) -> Result<Batch, SaveFault>
        requires fields { AreFields (fields_told fields.now) }
        requires end { end ≤ OFFSET_MAX }
        ensures made { IsTrue G.tells → (records : ℕ → Option Record) (v : View) (other : Option View) → IsOver (G.told outside.old) space.old records → IsView records tree.now v → IsFirst records first other
            → HasShortContents v.map → MatchResult result (IsBatch v other (fields_told fields.now) end) (IsSaveFault v other (fields_told fields.now) end) }
        ensures is_name { IfOk result (λ batch. IsHash batch.name) }
        ensures some { IfOk result (λ batch. 0 < length batch.bytes.items) }
        ensures placed { IfOk result (λ batch. (end ≤ batch.commit_at) × (batch.commit_at < end + length batch.bytes.items)) }
        ensures looks { Looks G.tells (G.told outside.old) (G.told outside.new) space.old space.new }
        ensures counts { Counts counted_save result (G.counts_of outside.old) (G.counts_of outside.new) }
        ensures causes { IfErr result (IsSaveCause G.tells (G.told outside.old) space.old) }
        // without another tree the ground is not asked
        ensures alone { first ≡ None → (outside.new ≡ outside.old) × (space.new ≡ space.old) × IfErr result IsUnfetched }
    {
        let tallied = tally_root(alloc, &tree.root)?;
        let ahead = tallied.ahead.as_slice();
        let fresh = match find_fresh(alloc, outside, space, &tree.root, ahead, first) {
            Ok(fresh) => fresh,
            Err(fault) => return Err(fault),
        };
        let placing = match place_fresh(alloc, &fresh, end) {
            Ok(placing) => placing,
            Err(Memory) => return Err(SaveFault::Memory),
        };
        let room = room_for(&placing.put, tallied.room, fields);
        let mut bytes = Vec::with_capacity(alloc, room)?;
        put_each(&placing.put, &mut bytes)?;
        let root = put_root(alloc, &tree.root, &placing.refs, ahead, end, &mut bytes)?;
        let commit_at = end + bytes.len() as u64;
        let name = put_commit(fields, &root, &mut bytes)?;
        put_branch(fields, &mut bytes)?;
        let last = end + bytes.len() as u64;
        if last > OFFSET_MAX {
            return Err(SaveFault::Space(name));
        }
        Ok(Batch {
            bytes,
            root,
            name,
            commit_at,
            end: last,
        })
    }

    /// The bytes of the records, one behind the other.
    pub fn bytes(&self) -> &[u8]
        ensures { result.now ≡ self.now.bytes.items }
    {
        &self.bytes
    }

    /// The root of the tree: a record of the batch, or one that was there already.
    pub fn root(&self) -> Ref
        ensures { result ≡ self.now.root }
    {
        self.root
    }

    /// The commit's name.
    pub fn name(&self) -> Hash
        ensures { result ≡ self.now.name }
    {
        self.name
    }

    /// The offset of the commit's record.
    pub fn commit_at(&self) -> u64
        ensures { result ≡ self.now.commit_at }
    {
        self.commit_at
    }

    /// The offset behind the last record.
    pub fn end(&self) -> u64
        ensures { result ≡ self.now.end }
    {
        self.end
    }
}

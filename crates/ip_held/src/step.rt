// A durable step: what it enters in the tables, and the one call that takes any step. A command is a plan, which answers why there is no
// step or gives one; what a crash may leave is told here alone.
ghost use Rattle.std.specs.Prelude.{◌≡◌, ◌+◌, ◌++◌, [], ◌∷◌, ◌≤◌, Err, None, position, length, true, IsOk, IsTrue, IfErr, OnOk, OnErr};
ghost use Rattle.ip_base.specs.declared.limit.TheConstants.{OFFSET_MAX};
ghost use Rattle.ip_ground.specs.Counts.{Counts};
ghost use Rattle.ip_held.specs.Answers.{IsCut};
ghost use Rattle.ip_held.specs.Changes.{HasAnswer, IsNextSlot, KeepsNumbers};
ghost use Rattle.ip_held.specs.Clear.{KeepsClear};
ghost use Rattle.ip_held.specs.Collecting.{carried};
ghost use Rattle.ip_held.specs.Faults.{counted_store};
ghost use Rattle.ip_held.specs.Held.{IsOf, Holds};
ghost use Rattle.ip_held.specs.Step.{Grew, IsStep, MayEnter, MayTake, Took, entered, entered_tables};
ghost use Rattle.ip_held.specs.declared.fault.StoreFault.TheVariants as StoreFault;
ghost use Rattle.ip_held.specs.declared.step.Entry.TheVariants as Entry;
ghost use Rattle.ip_ground.specs.Told.{ChangesOnly};
ghost use Rattle.ip_image.specs.Slot.{IsSlot};
ghost use Rattle.ip_publish.specs.Publishing.{IsOfStore};
ghost use Rattle.ip_image.specs.Standing.{names_after};
ghost use Rattle.ip_spec.specs.Map.{insert};
ghost use Rattle.ip_spec.specs.Path.{same_bytes};
ghost use Rattle.ip_spec.specs.Record.{Names};
ghost use Rattle.ip_spec.specs.Repository.{Repository};
ghost use Rattle.ip_spec.specs.TreeAt.{Records};
ghost use Rattle.ip_tables.specs.Histories as histories;

use crate::{Held, StoreFault};
use ip_base::limit::OFFSET_MAX;
use ip_base::{Blob, Hash, Limit, Memory, Number, Numbers};
use ip_control::Slot;
use ip_ground::Ground;
use ip_history::Table;
use ip_publish::durable_step;
use ip_spec::record::Record;
use ip_tables::Branches;
use std::alloc::Global;

/// What a step enters in the tables.
#[derive(Drop)]
pub enum Entry {
    /// The commit that comes next: its name, the numbers of its parents, the branch that is at it then, and where its record lies.
    Commit {
        name: Hash,
        parents: Numbers,
        branch: Blob,
        place: u64,
    },
    /// What a record says of the branches.
    Branch(Record),
    /// Nothing: the branches stay as they are.
    Nothing,
}

/// A durable step, but for the bytes of its records: the slot behind them, and what it enters in the tables.
#[derive(Drop)]
pub struct Step {
    pub slot: Slot,
    pub entry: Entry,
}

/// Puts a branch where the record says, or takes it away, or makes the branches those of a table. Where memory is refused they stay.
pub fn name_branch(alloc: Global, branches: &mut Branches, rec: Record) -> Result<(), Memory>
    ensures ok { OnOk result (branches.new ≡ names_after Names.branches branches.old rec) }
    ensures err { OnErr result (branches.new ≡ branches.old) }
{
    match rec {
        Record::BranchSet { number, name } => branches.set(name.into_vec(), number),
        Record::BranchRemove { name } => {
            branches.remove(name.as_slice());
            Ok(())
        }
        Record::BranchTable(rows) => {
            *branches = Branches::of_rows(alloc, rows)?;
            Ok(())
        }
        _ => Ok(()),
    }
}

// Puts a branch at a commit, and the commit's parents into the history. Where memory is refused both stay.
fn enter_head(
    alloc: Global,
    branches: &mut Branches,
    history: &mut Table,
    parents: &[Number],
    branch: Blob,
    number: Number,
) -> Result<(), Memory>
    requires parents { histories.MayEnter history.old parents.now }
    ensures ok { OnOk result ((branches.new ≡ insert branches.old branch number) × (history.new ≡ histories.with_parents history.old parents.now)) }
    ensures err { OnErr result ((branches.new ≡ branches.old) × (history.new ≡ history.old)) }
{
    if branches.get(branch.as_slice()).is_some() {
        history.push(parents)?;
        return match branches.set(branch.into_vec(), number) {
            Ok(()) => Ok(()),
            Err(Memory) => unreachable!(),
        };
    }
    let name = branch.copy(alloc)?;
    branches.set(branch.into_vec(), number)?;
    if let Err(Memory) = history.push(parents) {
        branches.remove(name.as_slice());
        return Err(Memory);
    }
    Ok(())
}

impl Held {
    /// The slot of a durable step, behind so many bytes of records and so many commits.
    pub fn next_slot(&self, length: usize, commits: u64) -> Result<Slot, StoreFault>
        requires slot { IsSlot self.now.slot }
        requires few { commits ≤ 1 }
        ensures { IsNextSlot (carried self.now) length commits result }
    {
        if length as u64 > OFFSET_MAX - self.slot.end {
            return Err(StoreFault::Limit(Limit::Space));
        }
        if self.slot.sequence >= OFFSET_MAX {
            return Err(StoreFault::Limit(Limit::Sequence));
        }
        Ok(Slot {
            sequence: self.slot.sequence + 1,
            end: self.slot.end + length as u64,
            next: self.slot.next + commits,
            first_chunk: self.unswept.chunk,
            first_attempt: self.unswept.attempt,
            ..self.slot
        })
    }

    // Enters a commit: its place, its name, its parents and its branch. Where memory is refused nothing is entered.
    fn enter_commit(
        &mut self,
        alloc: Global,
        name: Hash,
        parents: &[Number],
        branch: Blob,
        place: u64,
    ) -> Result<(), Memory>
        requires new { position (λ n. same_bytes n name) self.old.names ≡ None }
        requires parents { histories.MayEnter self.old.history parents.now }
        ensures ok { OnOk result (self.new ≡ record self.old { names = self.old.names ++ name ∷ []; places = self.old.places ++ place ∷ []; branches = insert self.old.branches branch self.old.slot.next; history = histories.with_parents self.old.history parents.now }) }
        ensures err { OnErr result (self.new ≡ self.old) }
    {
        let number = Number(self.slot.next);
        self.places.push(place)?;
        if let Err(Memory) = self.names.push(name) {
            self.places.pop();
            return Err(Memory);
        }
        if let Err(Memory) = enter_head(
            alloc,
            &mut self.branches,
            &mut self.history,
            parents,
            branch,
            number,
        ) {
            self.names.pop();
            self.places.pop();
            return Err(Memory);
        }
        Ok(())
    }

    // Enters in the tables what a step says. Where memory is refused nothing is entered.
    fn enter(&mut self, alloc: Global, entry: Entry) -> Result<(), Memory>
        requires { MayEnter self.old entry }
        ensures ok { OnOk result (self.new ≡ entered_tables entry self.old) }
        ensures err { OnErr result (self.new ≡ self.old) }
        ensures nothing { entry ≡ Entry.Nothing → IsOk result }
    {
        match entry {
            Entry::Commit {
                name,
                parents,
                branch,
                place,
            } => self.enter_commit(alloc, name, parents.as_slice(), branch, place),
            Entry::Branch(rec) => name_branch(alloc, &mut self.branches, rec),
            Entry::Nothing => Ok(()),
        }
    }

    /// Takes a step, by these bytes of its records behind all others: first the tables, which alone take memory, then the files. Once it is
    /// `Ok` the step is taken for good. Where memory is refused nothing was done; after `Ground` the store may not be used any more.
    pub fn take<G: Ground>(
        &mut self,
        alloc: Global,
        outside: &mut G,
        bytes: &[u8],
        step: Step,
    ) -> Result<(), StoreFault>
        requires tables { (r : Repository) × IsOf self.old r }
        requires may { MayTake self.old bytes.now step }
        ensures taken { OnOk result (self.new ≡ entered self.old step) }
        ensures refused { result ≡ Err StoreFault.Memory → (self.new ≡ self.old) × (outside.new ≡ outside.old) }
        ensures fault { IfErr result IsCut }
        // only what is entered takes memory
        ensures nothing { step.entry ≡ Entry.Nothing → IfErr result (λ fault. fault ≡ StoreFault.Ground) }
        ensures same_collection { self.new.collection ≡ self.old.collection }
        ensures unswept { self.new.unswept ≡ self.old.unswept }
        // of any answer: a commit needs it behind a fault too
        ensures numbers { KeepsNumbers self.old self.new }
        ensures grew { IsTrue G.tells → (r : Repository) (held : Holds self.old (G.told outside.old) r) → Grew (λ done. true) held result self.new (G.told outside.new) }
        // Whichever repository the step leads to: this is all that is told of what a crash leaves.
        ensures took { IsTrue G.tells → (r after : Repository) (more : Records) (held : Holds self.old (G.told outside.old) r) → IsStep held after more bytes.now step →
            Took (λ done. true) held after more result self.new (G.told outside.new) }
        // No other file is touched, whatever the files are.
        ensures beside { IsTrue G.tells → ChangesOnly IsOfStore (G.told outside.old) (G.told outside.new) }
        // What was cleared away stays so, whichever repository the step leads to.
        ensures clear { IsTrue G.tells → HasAnswer result → (r : Repository) → Holds self.old (G.told outside.old) r → KeepsClear self.old self.new (G.told outside.old) (G.told outside.new) }
        ensures counts { Counts counted_store result (G.counts_of outside.old) (G.counts_of outside.new) }
    {
        let Step { slot, entry } = step;
        self.enter(alloc, entry)?;
        durable_step(outside, self.slot.end, bytes, 1 - self.index, &slot)?;
        self.index = 1 - self.index;
        self.space.grow(slot.end);
        self.slot = slot;
        Ok(())
    }
}

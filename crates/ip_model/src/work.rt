// What a session holds, and the commands that read and edit it.
ghost use Rattle.std.specs.Prelude.{◌≡◌, ◌==◌, [], ◌∷◌, Some, IfOk};
ghost use Rattle.ip_spec.specs.Machine.{State, empty_work};
ghost use Rattle.ip_spec.specs.declared.command.Command.{Command};
ghost use Rattle.ip_spec.specs.declared.command.Command.TheVariants as Command;
ghost use Rattle.ip_spec.specs.Tree.{Tree as Map};
ghost use Rattle.ip_spec.specs.Step.{got_reply, listed_reply, least_with};
ghost use Rattle.std.specs.List.{list_any};
ghost use Rattle.ip_model.specs.Working.{IsWork, WorksTo, Answers, parent_after, graft_after};

use ip_base::limit::{CONTENTS_MAX, PARENTS_MAX, STEPS_MAX};
use ip_base::{Blob, Limit, Memory, Number, Numbers, Step};
use ip_model_trees::Tree;
use ip_spec::reply::Reply;
use ip_spec::tree::{Got, Listed};
use std::alloc::Global;

/// A tree, the commits that it goes on from, and the least number that it took from.
#[derive(Drop)]
pub struct Work {
    pub tree: Tree,
    pub parents: Numbers,
    pub least: Option<Number>,
}

impl Work {
    /// The work with which a session begins, and after `empty`.
    pub fn empty(alloc: Global) -> Self
        ensures { IsWork result empty_work }
    {
        Work {
            tree: Tree::none(alloc),
            parents: Numbers::empty(alloc),
            least: None,
        }
    }

    /// A tree that goes on from the commit of this number alone.
    pub fn at(alloc: Global, number: Number, tree: Tree) -> Result<Self, Memory>
        ensures { IfOk result (λ w. w ≡ record { tree = tree; parents = number ∷ []; least = Some number }) }
    {
        let mut parents = Numbers::empty(alloc);
        parents.push(number)?;
        Ok(Work {
            tree,
            parents,
            least: Some(number),
        })
    }

    /// Whether it goes on from a commit.
    pub fn goes_on_from(&self, number: Number) -> bool
        ensures { result ≡ list_any (λ p. p == number) self.now.parents }
    {
        has(self.parents.as_slice(), number)
    }

    /// `set` of contents at a path.
    pub fn set(&mut self, alloc: Global, path: &[Step], contents: Blob) -> Result<Reply, Memory>
        ensures { (s : State) → s.repository.floor ≡ 0 → IsWork self.old s.work → IfOk result (λ reply. Answers s (Command.Set path.now contents) reply self.new) }
    {
        if contents.len() > CONTENTS_MAX {
            return Ok(Reply::Limit(Limit::Contents));
        }
        let tree = self.tree.put(alloc, path, contents)?;
        if tree.is_wide(alloc)? {
            return Ok(Reply::Limit(Limit::Entries));
        }
        self.tree = tree;
        Ok(Reply::Accepted)
    }

    /// `rm` of a path.
    pub fn rm(&mut self, alloc: Global, path: &[Step]) -> Result<Reply, Memory>
        ensures { (s : State) → s.repository.floor ≡ 0 → IsWork self.old s.work → IfOk result (λ reply. Answers s (Command.Rm path.now) reply self.new) }
    {
        let sub = self.tree.subtree(alloc, path)?;
        if sub.is_empty() {
            return Ok(Reply::Absent);
        }
        self.tree = self.tree.remove(alloc, path)?;
        Ok(Reply::Accepted)
    }

    /// `parent`, where the commit was found.
    pub fn parent(&mut self, number: Number) -> Result<Reply, Memory>
        ensures { (s : State) → IsWork self.old s.work → IfOk result (λ reply. WorksTo s (parent_after s number) reply self.new) }
    {
        if self.goes_on_from(number) {
            return Ok(Reply::Accepted);
        }
        if self.parents.len() >= PARENTS_MAX {
            return Ok(Reply::Limit(Limit::Parents));
        }
        self.parents.push(number)?;
        self.least = least_with(self.least, number);
        Ok(Reply::Accepted)
    }

    /// `graft` of what stands somewhere in the tree of a commit, to a path.
    pub fn graft(
        &mut self,
        alloc: Global,
        number: Number,
        sub: &Tree,
        to: &[Step],
    ) -> Result<Reply, Memory>
        ensures { (s : State) (t : Map) → sub.now ≡ t.entries → IsWork self.old s.work → IfOk result (λ reply. WorksTo s (graft_after s number t to.now) reply self.new) }
    {
        if sub.is_empty() {
            return Ok(Reply::Absent);
        }
        if to.len().saturating_add(sub.height()) > STEPS_MAX {
            return Ok(Reply::Limit(Limit::Depth));
        }
        let tree = self.tree.place(alloc, to, sub)?;
        if tree.is_wide(alloc)? {
            return Ok(Reply::Limit(Limit::Entries));
        }
        self.tree = tree;
        self.least = least_with(self.least, number);
        Ok(Reply::Accepted)
    }

    /// `get` of a path.
    pub fn get(&self, alloc: Global, path: &[Step]) -> Result<Reply, Memory>
        ensures { (s : State) → s.repository.floor ≡ 0 → IsWork self.now s.work → IfOk result (λ reply. Answers s (Command.Get path.now) reply self.now) }
    {
        let got = self.tree.got_at(alloc, path)?;
        Ok(got_reply(got))
    }

    /// `list` of a path.
    pub fn list(&self, alloc: Global, path: &[Step]) -> Result<Reply, Memory>
        ensures { (s : State) → s.repository.floor ≡ 0 → IsWork self.now s.work → IfOk result (λ reply. Answers s (Command.List path.now) reply self.now) }
    {
        let listed = self.tree.listed_at(alloc, path)?;
        Ok(listed_reply(listed))
    }
}

/// What `get` and `cat` reply.
pub fn got_reply(got: Got) -> Reply
    ensures { result ≡ got_reply got }
{
    match got {
        Got::Value(bytes) => Reply::Value(bytes),
        Got::Dir(count) => Reply::Dir(count),
        Got::Absent => Reply::Absent,
    }
}

fn listed_reply(listed: Listed) -> Reply
    ensures { result ≡ listed_reply listed }
{
    match listed {
        Listed::Entries(items) => Reply::List(items),
        Listed::Contents => Reply::Contents,
        Listed::Absent => Reply::Absent,
    }
}

fn has(parents: &[Number], number: Number) -> bool
    ensures { result ≡ list_any (λ p. p == number) parents.now }
{
    for parent in parents {
        if *parent == number {
            return true;
        }
    }
    false
}

fn least_with(least: Option<Number>, number: Number) -> Option<Number>
    ensures { result ≡ least_with least number }
{
    match least {
        None => Some(number),
        Some(other) if other < number => Some(other),
        Some(_) => Some(number),
    }
}

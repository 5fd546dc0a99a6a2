// Commits as they were made, and what is told of them.
ghost use Rattle.std.specs.Prelude.{◌≡◌, ℕ, ◌<◌, ◌≤◌, ◌++◌, [], ◌∷◌, length, map, reverse, option_map, position, slice_get, All, IfOk};
ghost use Rattle.std.specs.List.{list_any};
ghost use Rattle.ip_base.specs.declared.limit.TheConstants.{PARENTS_MAX};
ghost use Rattle.ip_spec.specs.declared.reply.Reply.TheVariants as Reply;
ghost use Rattle.ip_spec.specs.Path.{same_bytes};
ghost use Rattle.ip_spec.specs.Record.{IsInfo};
ghost use Rattle.ip_spec.specs.Tree.{Tree};
ghost use Rattle.ip_spec.specs.Shape.{root_name};
ghost use Rattle.ip_spec.specs.Repository.{Repository, IsRepository, name_at, number_named};
ghost use Rattle.ip_spec.specs.History.{is_ancestor, ancestors, lcas};
ghost use Rattle.ip_spec.specs.Step.{commit_reply, new_commit};
ghost use Rattle.ip_model.specs.Commits.{IsOf, IsNext, name_in, history_in, told_reply};

use crate::history::History;
use ip_base::{Hash, Hashes, Info, Items, Memory, Number, Numbers};
use ip_model_trees::commit_name;
use ip_spec::record::{Parent, Parents};
use ip_spec::reply::Reply;
use std::alloc::Global;
use std::marker::Model;

/// A commit as it was made, with the name of its root.
#[derive(Drop)]
pub struct Commit {
    pub name: Hash,
    pub parents: Parents,
    pub info: Info,
    pub root: Hash,
}

/// All commits that were made, of which none was given up, in the order of their numbers.
#[derive(Drop)]
pub struct Commits {
    commits: Vec<Commit>,
}

impl Model for Commits {
    ghost use Rattle.std.specs.Prelude.{List};
    ghost use Rattle.ip_model.specs.declared.commits.Commit.{Commit};

    ghost Value = { List Commit };

    ghost view = { λ c. c.commits.items };
}

impl Commits {
    /// No commit.
    pub fn none(alloc: Global) -> Self
        ensures { result ≡ [] }
    {
        Commits {
            commits: Vec::new(alloc),
        }
    }

    /// How many there are.
    pub fn len(&self) -> usize
        ensures { result ≡ length self.now }
    {
        self.commits.len()
    }

    /// Makes a commit of the tree whose root has this name, with parents of these numbers, if there is none of its name.
    pub fn commit(
        &mut self,
        alloc: Global,
        root: &Hash,
        parents: &[Number],
        info: Info,
    ) -> Result<Reply, Memory>
        ensures { (r : Repository) (tree : Tree) → IsInfo info → length parents.now ≤ PARENTS_MAX → All (λ n. n < length self.old) parents.now → root.now ≡ root_name tree → IsOf self.old r →
            IfOk result (λ reply. IsNext r (new_commit r tree parents.now info) reply self.new) }
    {
        let parents = self.parents_of(alloc, parents)?;
        let names = names_of(alloc, parents.as_slice())?;
        let name = commit_name(root, names.as_slice(), &info);
        if self.has(&name) {
            return Ok(Reply::Existing(name));
        }
        self.commits.push(Commit {
            name,
            parents,
            info,
            root: *root,
        })?;
        Ok(Reply::Committed(name))
    }

    /// What `show` answers for a commit.
    pub fn show(&self, alloc: Global, number: Number) -> Result<Reply, Memory>
        ensures { (r : Repository) → IsOf self.now r → IfOk result (λ reply. reply ≡ commit_reply r number) }
    {
        match self.at(number) {
            Some(commit) => shown(alloc, number, commit),
            None => Ok(Reply::Accepted),
        }
    }

    /// What `log` answers for a commit.
    pub fn log(&self, alloc: Global, number: Number) -> Result<Reply, Memory>
        ensures { (r : Repository) → IsRepository r → IsOf self.now r → IfOk result (λ reply. reply ≡ Reply.Log (map (name_at r) (reverse (ancestors r number)))) }
    {
        let log = self.history(alloc)?.log(alloc, number)?;
        let parents = self.parents_of(alloc, log.as_slice())?;
        Ok(Reply::Log(names_of(alloc, parents.as_slice())?))
    }

    /// What `lcas` answers for two commits.
    pub fn lcas(&self, alloc: Global, one: Number, other: Number) -> Result<Reply, Memory>
        ensures { (r : Repository) → IsRepository r → IsOf self.now r → IfOk result (λ reply. reply ≡ Reply.Lcas (map (name_at r) (lcas r one other))) }
    {
        let least = self.history(alloc)?.lcas(alloc, one, other)?;
        let parents = self.parents_of(alloc, least.as_slice())?;
        Ok(Reply::Lcas(names_of(alloc, parents.as_slice())?))
    }

    /// Whether a commit is another one, or an ancestor of it.
    pub fn is_ancestor(&self, alloc: Global, one: Number, other: Number) -> Result<bool, Memory>
        ensures { (r : Repository) → IsRepository r → IsOf self.now r → IfOk result (λ is. is ≡ is_ancestor r one other) }
    {
        let history = self.history(alloc)?;
        Ok(history.is_ancestor(one, other))
    }

    /// The numbers of the least common ancestors of two commits.
    pub fn least_common(&self, alloc: Global, one: Number, other: Number) -> Result<Numbers, Memory>
        ensures { (r : Repository) → IsRepository r → IsOf self.now r → IfOk result (λ ns. ns ≡ lcas r one other) }
    {
        let history = self.history(alloc)?;
        history.lcas(alloc, one, other)
    }

    // The history of these commits.
    fn history(&self, alloc: Global) -> Result<History, Memory>
        ensures { IfOk result (λ h. h ≡ history_in self.now) }
    {
        let mut lists = Vec::new(alloc);
        for commit in &self.commits {
            lists.push(numbers_of(alloc, commit.parents.as_slice())?)?;
        }
        History::of(alloc, Number(0), lists)
    }

    // The commits of these numbers, with their names.
    fn parents_of(&self, alloc: Global, numbers: &[Number]) -> Result<Parents, Memory>
        ensures { IfOk result (λ ps. ps ≡ map (λ n. record { number = n; name = name_in self.now n }) numbers.now) }
    {
        let mut parents = Items::empty(alloc);
        for number in numbers {
            parents.push(Parent {
                number: *number,
                name: self.name_of(*number),
            })?;
        }
        Ok(parents)
    }

    fn at(&self, number: Number) -> Option<&Commit>
        ensures { option_map (λ f. f.now) result ≡ slice_get self.now number }
    {
        self.commits.get(number.get() as usize)
    }

    /// The name of a commit, and zeros for none.
    pub fn name_of(&self, number: Number) -> Hash
        ensures { result ≡ name_in self.now number }
    {
        match self.commits.get(number.get() as usize) {
            Some(commit) => commit.name,
            None => Hash([0; 32]),
        }
    }

    /// The number of the commit of a name.
    pub fn number_named(&self, name: &Hash) -> Option<Number>
        ensures { (r : Repository) → IsOf self.now r → result ≡ number_named r name.now }
    {
        match place_named(self.commits.as_slice(), name) {
            Some(place) => Some(Number(place as u64)),
            None => None,
        }
    }

    // Whether there is a commit of this name.
    fn has(&self, name: &Hash) -> bool
        ensures { result ≡ list_any (λ c. same_bytes c.name name.now) self.now }
    {
        for commit in &self.commits {
            if commit.name.cmp(name).is_eq() {
                return true;
            }
        }
        false
    }
}

// What is told of a commit.
fn shown(alloc: Global, number: Number, commit: &Commit) -> Result<Reply, Memory>
    ensures { IfOk result (λ reply. reply ≡ told_reply number commit.now) }
{
    Ok(Reply::Commit {
        name: commit.name,
        number,
        root: commit.root,
        parents: names_of(alloc, commit.parents.as_slice())?,
        info: Info {
            date: commit.info.date,
            author: commit.info.author.copy(alloc)?,
            message: commit.info.message.copy(alloc)?,
        },
    })
}

fn place_named(commits: &[Commit], name: &Hash) -> Option<usize>
    ensures { result ≡ position (λ c. same_bytes c.name name.now) commits.now }
{
    for i in 0..commits.len() {
        if commits[i].name.cmp(name).is_eq() {
            return Some(i);
        }
    }
    None
}

fn names_of(alloc: Global, parents: &[Parent]) -> Result<Hashes, Memory>
    ensures { IfOk result (λ names. names ≡ map (λ p. p.name) parents.now) }
{
    let mut names = Items::empty(alloc);
    for parent in parents {
        names.push(parent.name)?;
    }
    Ok(names)
}

fn numbers_of(alloc: Global, parents: &[Parent]) -> Result<Numbers, Memory>
    ensures { IfOk result (λ numbers. numbers ≡ map (λ p. p.number) parents.now) }
{
    let mut numbers = Items::empty(alloc);
    for parent in parents {
        numbers.push(parent.number)?;
    }
    Ok(numbers)
}

// The machine over whole maps, while no collection runs and no commit was given up: one command after another, with nothing met.
ghost use Rattle.std.specs.Prelude.{◌≡◌, ◌<◌, ◌++◌, [], ◌∷◌, ◌&&◌, cond, not, is_some, nat_le, length, map, option_map, slice_get, Some, IfOk, OnOk};
ghost use Rattle.std.specs.FinMap.Entries.{find, put, where_key};
ghost use Rattle.ip_base.specs.declared.limit.TheConstants.{BRANCHES_MAX};
ghost use Rattle.ip_spec.specs.Path.{bytes_cmp, same_bytes};
ghost use Rattle.ip_spec.specs.Record.{IsInfo};
ghost use Rattle.ip_spec.specs.Machine.{State, opened};
ghost use Rattle.ip_spec.specs.Repository.{IsRepository, no_repository, next, tree_at};
ghost use Rattle.ip_spec.specs.Tree.{Tree as Map, subtree, got_at};
ghost use Rattle.ip_spec.specs.MergeModel.{base_of};
ghost use Rattle.ip_spec.specs.Step.{answer, quiet, resolve, present, moved_head, got_reply, or_refused, forward_turn};
ghost use Rattle.ip_spec.specs.declared.reply.Reply.TheVariants as Reply;
ghost use Rattle.ip_spec.specs.declared.command.Command.TheVariants as Command;
ghost use Rattle.ip_model.specs.Commits.{name_in};
ghost use Rattle.ip_model.specs.MergeTurns.{OneAnswers, MergesOn, MergesFrom, IntoHead, JoinsTo, HasShortSteps, kept_after, added_after};
ghost use Rattle.ip_model_trees.specs.Small.{IsSmall};
ghost use Rattle.ip_model.specs.Working.{IsState, IsSound, TurnsTo, StepsTo, HasInfo, Models, lcas_after, branch_after, checkout_after, graft_after, commit_after};

use crate::commits::Commits;
use crate::work::{Work, got_reply};
use ip_base::limit::{BRANCHES_MAX, CONTENTS_MAX};
use ip_base::{Blob, Info, Items, Limit, Memory, Number, Step};
use ip_merge::Decides;
use ip_model_trees::{Joined, Tree, contents_name, count_of, put};
use ip_spec::command::{Command, Target};
use ip_spec::reply::{Head, Heads, Reply};
use std::alloc::Global;

/// The commits with their trees, the branches ascending by name, and the work.
#[derive(Drop)]
pub struct Machine {
    commits: Commits,
    trees: Vec<Tree>,
    branches: Vec<(Blob, Number)>,
    work: Work,
}

impl Machine {
    /// No commit, no branch, and the empty work.
    pub fn none(alloc: Global) -> Self
        ensures { IsState result (opened no_repository) }
    {
        Machine {
            commits: Commits::none(alloc),
            trees: Vec::new(alloc),
            branches: Vec::new(alloc),
            work: Work::empty(alloc),
        }
    }

    /// One command. None: it is a merge, which `merge` answers, or begins a collection, which is none of the model's.
    pub fn step(&mut self, alloc: Global, command: &Command) -> Result<Option<Reply>, Memory>
        ensures { (s : State) → IsSound s → HasInfo command.now → IsState self.old s → IfOk result (λ found. Models s command.now found self.new) }
    {
        match command {
            Command::Empty => Ok(Some(self.empty(alloc))),
            Command::Checkout(target) => Ok(Some(self.checkout(alloc, target)?)),
            Command::Set { path, contents } => {
                Ok(Some(self.set(alloc, path.steps(), contents.copy(alloc)?)?))
            }
            Command::Rm(path) => Ok(Some(self.rm(alloc, path.steps())?)),
            Command::Graft { target, from, to } => {
                Ok(Some(self.graft(alloc, target, from.steps(), to.steps())?))
            }
            Command::Parent(target) => Ok(Some(self.parent(alloc, target)?)),
            Command::Get(path) => Ok(Some(self.get(alloc, path.steps())?)),
            Command::List(path) => Ok(Some(self.list(alloc, path.steps())?)),
            Command::Cat { target, path } => Ok(Some(self.cat(alloc, target, path.steps())?)),
            Command::Commit { branch, info } => {
                Ok(Some(self.commit(alloc, branch.copy(alloc)?, copied(alloc, info)?)?))
            }
            Command::Branch { name, target } => {
                Ok(Some(self.branch(alloc, name.copy(alloc)?, target)?))
            }
            Command::BranchRm(name) => Ok(Some(self.remove_branch(alloc, name)?)),
            Command::Branches => Ok(Some(self.branches(alloc)?)),
            Command::Show(target) => Ok(Some(self.show(alloc, target)?)),
            Command::Log(target) => Ok(Some(self.log(alloc, target)?)),
            Command::Lcas { one, other } => Ok(Some(self.lcas(alloc, one, other)?)),
            Command::Hash(bytes) => Ok(Some(Machine::hash(bytes.as_slice()))),
            Command::Look | Command::Finish | Command::Cancel => Ok(Some(Reply::Idle)),
            Command::Stat => Ok(Some(self.stat()?)),
            Command::Merge { .. } | Command::Collect(_) => Ok(None),
        }
    }

    // `empty`.
    fn empty(&mut self, alloc: Global) -> Reply
        ensures { (s : State) → IsState self.old s → StepsTo s Command.Empty result self.new }
    {
        self.work = Work::empty(alloc);
        Reply::Accepted
    }

    // `checkout` of a commit.
    fn checkout(&mut self, alloc: Global, target: &Target) -> Result<Reply, Memory>
        ensures { (s : State) → IsRepository s.repository → IsState self.old s → IfOk result (λ reply. StepsTo s (Command.Checkout target.now) reply self.new) }
    {
        match self.resolve(alloc, target)? {
            Ok(number) => self.check_out(alloc, number),
            Err(reply) => Ok(reply),
        }
    }

    fn check_out(&mut self, alloc: Global, number: Number) -> Result<Reply, Memory>
        ensures { (s : State) → number < next s.repository → IsState self.old s → IfOk result (λ reply. TurnsTo (checkout_after s number) reply self.new) }
    {
        self.work = Work::at(alloc, number, self.tree_at(alloc, number)?)?;
        Ok(Reply::At(self.commits.name_of(number)))
    }

    // `set` of contents at a path.
    fn set(&mut self, alloc: Global, path: &[Step], contents: Blob) -> Result<Reply, Memory>
        ensures { (s : State) → IsState self.old s → IfOk result (λ reply. StepsTo s (Command.Set path.now contents) reply self.new) }
    {
        self.work.set(alloc, path, contents)
    }

    // `rm` of a path.
    fn rm(&mut self, alloc: Global, path: &[Step]) -> Result<Reply, Memory>
        ensures { (s : State) → IsState self.old s → IfOk result (λ reply. StepsTo s (Command.Rm path.now) reply self.new) }
    {
        self.work.rm(alloc, path)
    }

    // `graft` of what stands somewhere in the tree of a commit, to a path.
    fn graft(
        &mut self,
        alloc: Global,
        target: &Target,
        from: &[Step],
        to: &[Step],
    ) -> Result<Reply, Memory>
        ensures { (s : State) → IsState self.old s → IfOk result (λ reply. StepsTo s (Command.Graft target.now from.now to.now) reply self.new) }
    {
        match self.resolve(alloc, target)? {
            Ok(number) => self.graft_from(alloc, number, from, to),
            Err(reply) => Ok(reply),
        }
    }

    fn graft_from(
        &mut self,
        alloc: Global,
        number: Number,
        from: &[Step],
        to: &[Step],
    ) -> Result<Reply, Memory>
        ensures { (s : State) → IsState self.old s → IfOk result (λ reply. TurnsTo (graft_after s number (subtree (tree_at s.repository number) from.now) to.now) reply self.new) }
    {
        let source = self.tree_at(alloc, number)?;
        let sub = source.subtree(alloc, from)?;
        self.work.graft(alloc, number, &sub, to)
    }

    // `parent`: the work goes on from a commit too.
    fn parent(&mut self, alloc: Global, target: &Target) -> Result<Reply, Memory>
        ensures { (s : State) → IsState self.old s → IfOk result (λ reply. StepsTo s (Command.Parent target.now) reply self.new) }
    {
        match self.resolve(alloc, target)? {
            Ok(number) => self.work.parent(number),
            Err(reply) => Ok(reply),
        }
    }

    // `get` of a path.
    fn get(&self, alloc: Global, path: &[Step]) -> Result<Reply, Memory>
        ensures { (s : State) → IsState self.now s → IfOk result (λ reply. StepsTo s (Command.Get path.now) reply self.now) }
    {
        self.work.get(alloc, path)
    }

    // `list` of a path.
    fn list(&self, alloc: Global, path: &[Step]) -> Result<Reply, Memory>
        ensures { (s : State) → IsState self.now s → IfOk result (λ reply. StepsTo s (Command.List path.now) reply self.now) }
    {
        self.work.list(alloc, path)
    }

    // `commit` of the work to a branch.
    fn commit(&mut self, alloc: Global, branch: Blob, info: Info) -> Result<Reply, Memory>
        ensures { (s : State) → IsSound s → IsInfo info → IsState self.old s → IfOk result (λ reply. StepsTo s (Command.Commit branch info) reply self.new) }
    {
        if let Some(number) = self.moved_head(&branch) {
            return Ok(Reply::HeadMoved(self.commits.name_of(number)));
        }
        if self.is_full(&branch) {
            return Ok(Reply::Limit(Limit::Branches));
        }
        self.add_commit(alloc, branch, info)
    }

    // The number of a branch's commit, if it has one and the work doesn't go on from it.
    fn moved_head(&self, branch: &Blob) -> Option<Number>
        ensures { result ≡ moved_head (find bytes_cmp branch.now self.now.branches.items) self.now.work.parents }
    {
        match number_of(self.branches.as_slice(), branch) {
            Some(number) if !self.work.goes_on_from(number) => Some(number),
            _ => None,
        }
    }

    fn add_commit(&mut self, alloc: Global, branch: Blob, info: Info) -> Result<Reply, Memory>
        ensures { (s : State) → IsSound s → IsInfo info → IsState self.old s → IfOk result (λ reply. TurnsTo (commit_after s branch info) reply self.new) }
    {
        let number = Number(self.commits.len() as u64);
        let root = self.work.tree.root_name(alloc)?;
        match self
            .commits
            .commit(alloc, &root, self.work.parents.as_slice(), info)?
        {
            Reply::Committed(name) => {
                self.keep_work(alloc, branch, number)?;
                Ok(Reply::Committed(name))
            }
            existing => Ok(existing),
        }
    }

    // The work is the tree of the last commit, and goes on from it; the branch is at it.
    fn keep_work(&mut self, alloc: Global, branch: Blob, number: Number) -> Result<(), Memory>
        ensures commits { self.new.commits ≡ self.old.commits }
        ensures trees { OnOk result (self.new.trees.items ≡ self.old.trees.items ++ self.old.work.tree ∷ []) }
        ensures branches { OnOk result (self.new.branches.items ≡ put bytes_cmp branch number self.old.branches.items) }
        ensures work { OnOk result (self.new.work ≡ record { tree = self.old.work.tree; parents = number ∷ []; least = Some number }) }
    {
        let tree = self.work.tree.copy(alloc)?;
        self.trees.push(self.work.tree.copy(alloc)?)?;
        put(&mut self.branches, branch, number)?;
        self.work = Work::at(alloc, number, tree)?;
        Ok(())
    }

    /// `merge` of a commit into a branch, by rules of which each means one answer.
    pub fn merge<D: Decides>(
        &mut self,
        alloc: Global,
        target: &Target,
        branch: Blob,
        info: Info,
        rules: &D,
    ) -> Result<Reply, Memory>
        ensures { (s : State) → IsSound s → IsInfo info → OneAnswers (D.rule rules.now) → IsState self.old s → IfOk result (λ reply. MergesOn (D.rule rules.now) s target.now branch info reply self.new) }
    {
        match self.resolve(alloc, target)? {
            Ok(number) => self.merge_commit(alloc, number, branch, info, rules),
            Err(reply) => Ok(reply),
        }
    }

    fn merge_commit<D: Decides>(
        &mut self,
        alloc: Global,
        number: Number,
        branch: Blob,
        info: Info,
        rules: &D,
    ) -> Result<Reply, Memory>
        ensures { (s : State) → IsSound s → IsInfo info → OneAnswers (D.rule rules.now) → number < next s.repository → IsState self.old s → IfOk result (λ reply. MergesFrom (D.rule rules.now) s number branch info reply self.new) }
    {
        match self.head(alloc, &branch)? {
            Ok(head) => self.merge_into(alloc, head, number, branch, info, rules),
            Err(reply) => Ok(reply),
        }
    }

    // `merge` into a branch at this commit.
    fn merge_into<D: Decides>(
        &mut self,
        alloc: Global,
        head: Number,
        number: Number,
        branch: Blob,
        info: Info,
        rules: &D,
    ) -> Result<Reply, Memory>
        ensures { (s : State) → IsSound s → IsInfo info → OneAnswers (D.rule rules.now) → head < next s.repository → number < next s.repository → IsState self.old s → IfOk result (λ reply. IntoHead (D.rule rules.now) s number branch head info reply self.new) }
    {
        if self.commits.is_ancestor(alloc, number, head)? {
            return Ok(Reply::Current(self.commits.name_of(head)));
        }
        if self.commits.is_ancestor(alloc, head, number)? {
            return self.forward(branch, number);
        }
        self.join(alloc, head, number, branch, info, rules)
    }

    // The branch moves on to a commit.
    fn forward(&mut self, branch: Blob, commit: Number) -> Result<Reply, Memory>
        ensures { (s : State) → commit < next s.repository → IsState self.old s → IfOk result (λ reply. TurnsTo (or_refused s (forward_turn s quiet commit branch)) reply self.new) }
    {
        put(&mut self.branches, branch, commit)?;
        Ok(Reply::Forward(self.commits.name_of(commit)))
    }

    // The trees of two commits are merged over that of their least common ancestor.
    fn join<D: Decides>(
        &mut self,
        alloc: Global,
        head: Number,
        number: Number,
        branch: Blob,
        info: Info,
        rules: &D,
    ) -> Result<Reply, Memory>
        ensures { (s : State) → IsSound s → IsInfo info → OneAnswers (D.rule rules.now) → head < next s.repository → number < next s.repository → IsState self.old s → IfOk result (λ reply. JoinsTo (D.rule rules.now) s number branch head info reply self.new) }
    {
        let least = self.commits.least_common(alloc, head, number)?;
        if least.len() > 1 {
            return Ok(Reply::Bases(count_of(least.len())?));
        }
        let base = self.base(alloc, least.as_slice())?;
        let left = self.tree_at(alloc, head)?;
        let right = self.tree_at(alloc, number)?;
        match Tree::merge(alloc, &base, &left, &right, rules)? {
            Joined::Merged(tree) => self.keep_merge(alloc, tree, head, number, branch, info),
            Joined::Conflict(path) => Ok(Reply::Conflict(path)),
        }
    }

    // The tree of the one least common ancestor, and the empty one for none.
    #[tactic(auto, unfolding(ip_spec::specs::Tree::no_tree, ip_spec::specs::Map::empty))]
    fn base(&self, alloc: Global, least: &[Number]) -> Result<Tree, Memory>
        ensures { (s : State) → IsState self.now s → IfOk result (λ t. t ≡ (base_of s.repository least.now).entries) }
    {
        match least {
            [first, ..] => self.tree_at(alloc, *first),
            [] => Ok(Tree::none(alloc)),
        }
    }

    // A commit of the merge of two commits' trees, if it is within the limits.
    fn keep_merge(
        &mut self,
        alloc: Global,
        tree: Tree,
        head: Number,
        number: Number,
        branch: Blob,
        info: Info,
    ) -> Result<Reply, Memory>
        ensures { (s : State) (t : Map) → tree ≡ t.entries → HasShortSteps t → IsInfo info → head < next s.repository → number < next s.repository → IsState self.old s → IfOk result (λ reply. TurnsTo (kept_after s number branch head info t) reply self.new) }
    {
        if tree.longest() > CONTENTS_MAX {
            return Ok(Reply::Limit(Limit::Contents));
        }
        if tree.is_wide(alloc)? {
            return Ok(Reply::Limit(Limit::Entries));
        }
        self.add_merge(alloc, tree, head, number, branch, info)
    }

    fn add_merge(
        &mut self,
        alloc: Global,
        tree: Tree,
        head: Number,
        number: Number,
        branch: Blob,
        info: Info,
    ) -> Result<Reply, Memory>
        ensures { (s : State) (t : Map) → tree ≡ t.entries → IsSmall t → IsInfo info → head < next s.repository → number < next s.repository → IsState self.old s → IfOk result (λ reply. TurnsTo (added_after s number branch head info t) reply self.new) }
    {
        let place = Number(self.commits.len() as u64);
        let root = tree.root_name(alloc)?;
        match self.commits.commit(alloc, &root, &[head, number], info)? {
            Reply::Committed(name) => {
                self.keep_tree(tree, branch, place)?;
                Ok(Reply::Merged(name))
            }
            existing => Ok(existing),
        }
    }

    // The last commit has this tree, and the branch is at it.
    fn keep_tree(&mut self, tree: Tree, branch: Blob, commit: Number) -> Result<(), Memory>
        ensures commits { self.new.commits ≡ self.old.commits }
        ensures trees { OnOk result (self.new.trees.items ≡ self.old.trees.items ++ tree ∷ []) }
        ensures branches { OnOk result (self.new.branches.items ≡ put bytes_cmp branch commit self.old.branches.items) }
        ensures work { self.new.work ≡ self.old.work }
    {
        self.trees.push(tree)?;
        put(&mut self.branches, branch, commit)?;
        Ok(())
    }

    // `branch` at a commit.
    fn branch(&mut self, alloc: Global, name: Blob, target: &Target) -> Result<Reply, Memory>
        ensures { (s : State) → IsState self.old s → IfOk result (λ reply. StepsTo s (Command.Branch name target.now) reply self.new) }
    {
        match self.resolve(alloc, target)? {
            Ok(number) => self.set_branch(name, number),
            Err(reply) => Ok(reply),
        }
    }

    fn set_branch(&mut self, name: Blob, number: Number) -> Result<Reply, Memory>
        ensures { (s : State) → IsState self.old s → IfOk result (λ reply. TurnsTo (branch_after s name number) reply self.new) }
    {
        if self.is_full(&name) {
            return Ok(Reply::Limit(Limit::Branches));
        }
        put(&mut self.branches, name, number)?;
        Ok(Reply::Accepted)
    }

    // Whether there is no room for a branch.
    fn is_full(&self, name: &Blob) -> bool
        ensures { result ≡ (not (is_some (find bytes_cmp name.now self.now.branches.items)) && nat_le BRANCHES_MAX (length self.now.branches.items)) }
    {
        let branches = self.branches.as_slice();
        number_of(branches, name).is_none() && branches.len() >= BRANCHES_MAX
    }

    // `branch-rm` of a branch.
    fn remove_branch(&mut self, alloc: Global, name: &Blob) -> Result<Reply, Memory>
        ensures { (s : State) → IsState self.old s → IfOk result (λ reply. StepsTo s (Command.BranchRm name.now) reply self.new) }
    {
        if number_of(self.branches.as_slice(), name).is_none() {
            return Ok(Reply::NoBranch(name.copy(alloc)?));
        }
        self.branches = without(alloc, self.branches.as_slice(), name)?;
        Ok(Reply::Accepted)
    }

    // `branches`.
    fn branches(&self, alloc: Global) -> Result<Reply, Memory>
        ensures { (s : State) → IsRepository s.repository → IsState self.now s → IfOk result (λ reply. answer s Command.Branches quiet ≡ (reply, s)) }
    {
        Ok(Reply::Branches(self.heads(alloc)?))
    }

    // Each branch with the name of its commit.
    fn heads(&self, alloc: Global) -> Result<Heads, Memory>
        ensures { IfOk result (λ heads. heads ≡ map (λ e. record { branch = e.0; name = name_in self.now.commits e.1 }) self.now.branches.items) }
    {
        let mut heads = Items::empty(alloc);
        for branch in &self.branches {
            heads.push(Head {
                branch: branch.0.copy(alloc)?,
                name: self.commits.name_of(branch.1),
            })?;
        }
        Ok(heads)
    }

    // `show` of a commit.
    fn show(&self, alloc: Global, target: &Target) -> Result<Reply, Memory>
        ensures { (s : State) → IsState self.now s → IfOk result (λ reply. answer s (Command.Show target.now) quiet ≡ (reply, s)) }
    {
        match self.resolve(alloc, target)? {
            Ok(number) => self.commits.show(alloc, number),
            Err(reply) => Ok(reply),
        }
    }

    // `log` of a commit.
    fn log(&self, alloc: Global, target: &Target) -> Result<Reply, Memory>
        ensures { (s : State) → IsRepository s.repository → IsState self.now s → IfOk result (λ reply. answer s (Command.Log target.now) quiet ≡ (reply, s)) }
    {
        match self.resolve(alloc, target)? {
            Ok(number) => self.commits.log(alloc, number),
            Err(reply) => Ok(reply),
        }
    }

    // `lcas` of two commits.
    fn lcas(&self, alloc: Global, one: &Target, other: &Target) -> Result<Reply, Memory>
        ensures { (s : State) → IsRepository s.repository → IsState self.now s → IfOk result (λ reply. answer s (Command.Lcas one.now other.now) quiet ≡ (reply, s)) }
    {
        match self.resolve(alloc, one)? {
            Ok(a) => self.lcas_with(alloc, a, other),
            Err(reply) => Ok(reply),
        }
    }

    fn lcas_with(&self, alloc: Global, a: Number, other: &Target) -> Result<Reply, Memory>
        ensures { (s : State) → IsRepository s.repository → IsState self.now s → IfOk result (λ reply. lcas_after s a other.now ≡ (reply, s)) }
    {
        match self.resolve(alloc, other)? {
            Ok(b) => self.commits.lcas(alloc, a, b),
            Err(reply) => Ok(reply),
        }
    }

    // `cat` of a path in the tree of a commit.
    fn cat(&self, alloc: Global, target: &Target, path: &[Step]) -> Result<Reply, Memory>
        ensures { (s : State) → IsState self.now s → IfOk result (λ reply. answer s (Command.Cat target.now path.now) quiet ≡ (reply, s)) }
    {
        match self.resolve(alloc, target)? {
            Ok(number) => self.got(alloc, number, path),
            Err(reply) => Ok(reply),
        }
    }

    // `hash` of contents.
    fn hash(bytes: &[u8]) -> Reply
        ensures { (s : State) → answer s (Command.Hash bytes.now) quiet ≡ (result, s) }
    {
        Reply::Hash(contents_name(bytes))
    }

    // `stat`. Want of memory is answered only where there are 2^32 branches.
    fn stat(&self) -> Result<Reply, Memory>
        ensures { (s : State) → IsState self.now s → IfOk result (λ reply. answer s Command.Stat quiet ≡ (reply, s)) }
    {
        Ok(Reply::Stat {
            floor: Number(0),
            next: Number(self.commits.len() as u64),
            branches: count_of(self.branches.as_slice().len())?,
            at: None,
        })
    }

    fn got(&self, alloc: Global, number: Number, path: &[Step]) -> Result<Reply, Memory>
        ensures { (s : State) → IsState self.now s → IfOk result (λ reply. reply ≡ got_reply (got_at (tree_at s.repository number) path.now)) }
    {
        let tree = self.tree_at(alloc, number)?;
        let got = tree.got_at(alloc, path)?;
        Ok(got_reply(got))
    }

    // The tree of a commit, and the empty one for none.
    fn tree_at(&self, alloc: Global, number: Number) -> Result<Tree, Memory>
        ensures { (s : State) → IsState self.now s → IfOk result (λ t. t ≡ (tree_at s.repository number).entries) }
    {
        match tree_of(self.trees.as_slice(), number) {
            Some(tree) => tree.copy(alloc),
            None => Ok(Tree::none(alloc)),
        }
    }

    // The number of a commit, or the reply that refuses.
    fn resolve(&self, alloc: Global, target: &Target) -> Result<Result<Number, Reply>, Memory>
        ensures { (s : State) → IsState self.now s → IfOk result (λ found. found ≡ resolve s.repository target.now) }
    {
        match target {
            Target::Branch(name) => self.head(alloc, name),
            Target::Commit(hash) => match self.commits.number_named(hash) {
                Some(number) => Ok(Ok(number)),
                None => Ok(Err(Reply::NoCommit(*hash))),
            },
        }
    }

    // The number of a branch's commit, or the reply that refuses.
    fn head(&self, alloc: Global, name: &Blob) -> Result<Result<Number, Reply>, Memory>
        ensures { IfOk result (λ found. found ≡ present (find bytes_cmp name.now self.now.branches.items) (Reply.NoBranch name.now)) }
    {
        match number_of(self.branches.as_slice(), name) {
            Some(number) => Ok(Ok(number)),
            None => Ok(Err(Reply::NoBranch(name.copy(alloc)?))),
        }
    }
}

fn tree_of(trees: &[Tree], number: Number) -> Option<&Tree>
    ensures { option_map (λ t. t.now) result ≡ slice_get trees.now number }
{
    trees.get(number.get() as usize)
}

fn copied(alloc: Global, info: &Info) -> Result<Info, Memory>
    ensures { IfOk result (λ i. i ≡ info.now) }
{
    Ok(Info {
        date: info.date,
        author: info.author.copy(alloc)?,
        message: info.message.copy(alloc)?,
    })
}

// The branches without one.
fn without(
    alloc: Global,
    branches: &[(Blob, Number)],
    name: &Blob,
) -> Result<Vec<(Blob, Number)>, Memory>
    ensures { IfOk result (λ kept. kept.items ≡ where_key bytes_cmp (λ q. not (same_bytes name.now q)) branches.now) }
{
    let mut kept = Vec::new(alloc);
    for branch in branches {
        let goes = name.cmp(&branch.0).is_eq();
        push_unless(alloc, &mut kept, goes, branch)?;
    }
    Ok(kept)
}

// Puts a copy of an entry behind all others, unless it goes.
fn push_unless(
    alloc: Global,
    kept: &mut Vec<(Blob, Number)>,
    goes: bool,
    branch: &(Blob, Number),
) -> Result<(), Memory>
    ensures { OnOk result (kept.new.items ≡ kept.old.items ++ cond goes [] (branch.now ∷ [])) }
{
    if goes {
        return Ok(());
    }
    kept.push((branch.0.copy(alloc)?, branch.1))?;
    Ok(())
}

fn number_of(branches: &[(Blob, Number)], name: &Blob) -> Option<Number>
    ensures { result ≡ find bytes_cmp name.now branches.now }
{
    for branch in branches {
        if name.cmp(&branch.0).is_eq() {
            return Some(branch.1);
        }
    }
    None
}

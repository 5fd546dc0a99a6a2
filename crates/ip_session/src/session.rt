// A session: one line, one reply.
ghost use Rattle.std.specs.Prelude.{◌≡◌, ◌<◌, ◌≤◌, [], false, ℕ, length, Option, IsTrue, IfOk, IfErr, OnOk, OnErr, IsOk, None, Ok};
ghost use Rattle.ip_base.specs.declared.limit.TheConstants.{PARENTS_MAX};
ghost use Rattle.std.specs.Vec.{vec_capacity};
ghost use Rattle.ip_ground.specs.Counts.{CountsIf};
ghost use Rattle.ip_spec.specs.Map.{len};
ghost use Rattle.ip_spec.specs.View.{View, no_view};
ghost use Rattle.ip_spec.specs.declared.record.Record.{Record};
ghost use Rattle.ip_spec.specs.declared.command.Target.{Target};
ghost use Rattle.ip_spec.specs.Repository.{Repository, next, is_retained};
ghost use Rattle.ip_spec.specs.Machine.{opened};
ghost use Rattle.ip_spec.specs.declared.command.Command.TheVariants as Command;
ghost use Rattle.ip_spec.specs.declared.reply.Reply.{Reply};
ghost use Rattle.ip_spec.specs.declared.reply.Reply.TheVariants as Reply;
ghost use Rattle.ip_spec.specs.Step.{resolve, least_with, phase_at};
ghost use Rattle.ip_spec.specs.Line.{IsLineOf};
ghost use Rattle.ip_spec.specs.Text.{reply_text};
ghost use Rattle.ip_held.specs.Collecting.{child_of, phase_of};
ghost use Rattle.ip_held.specs.Answers.{met_nothing};
ghost use Rattle.ip_held.specs.Held.{IsOf, image_records};
ghost use Rattle.ip_held.specs.Work.{IsLawful, IsThere};
ghost use Rattle.ip_merge.specs.Rules.{IsDecisive};
ghost use Rattle.ip_session.specs.Clearing.{ClearIn};
ghost use Rattle.ip_session.specs.Asking.{AsksNoGround, IsBoundedIn, QuietIfLong, MeetsNone, Spawns, TellsNone};
ghost use Rattle.ip_session.specs.Placing.{PlacedIn};
ghost use Rattle.ip_session.specs.Running.{Ran};
ghost use Rattle.ip_session.specs.Wanting.{Wants, WantsIn};
ghost use Rattle.ip_session.specs.declared.session.TheConstants.{REPLY_ROOM};
ghost use Rattle.ip_session.specs.Session.{counted_end, met_only, CountsIn, IsHeld, EndsBy, MetDamage, StillIn};

use crate::replies::{met_only, put_reply, refuse};
use ip_base::limit::PARENTS_MAX;
use ip_base::{Hash, Items, Limit, Number};
use ip_ground::Ground;
use ip_merge::Decides;
use ip_script::{Command, LineFault, Reply, Target, read_line};
use ip_spawn::Spawner;
use ip_spec::met::{Met, Phase};
use ip_store::{Store, Work};
use sha2::{Digest, Sha256};
use std::alloc::Global;

/// So many bytes of a reply's text take no memory: whoever asks for an answer has room for them.
pub const REPLY_ROOM: usize = 4096;

/// Why a session has ended. The store is to be opened anew.
#[derive(Clone, Copy, Debug, PartialEq, Eq)]
pub enum SessionEnd {
    /// A call on the ground failed, and cut the command short.
    Ground,
    /// The files were changed by others: at this offset stands no record of the kind that stood there, or, where `names` has the wanted name
    /// and the one that was found, one of another name.
    Damaged {
        at: u64,
        names: Option<(Hash, Hash)>,
    },
}

// The commit that a reference names, or the answer that there is none.
pub(crate) fn resolve(store: &Store, target: Target) -> Result<Number, Reply>
    requires tables { (r : Repository) × IsOf store.now.held r }
    ensures number { (r : Repository) → IsOf store.now.held r → result ≡ resolve r target }
    ensures retained { (r : Repository) → IsOf store.now.held r → IfOk result (λ n. IsTrue (is_retained r n)) }
    ensures tells_none { IfErr result TellsNone }
{
    match target {
        Target::Branch(name) => match store.head(name.as_slice()) {
            Some(number) => Ok(number),
            None => Err(Reply::NoBranch(name)),
        },
        Target::Commit(name) => match store.commit_named(&name) {
            Some(number) => Ok(number),
            None => Err(Reply::NoCommit(name)),
        },
    }
}

// The least number of a work that takes from one more commit.
pub(crate) fn least_with(least: Option<Number>, number: Number) -> Number
    ensures { Some result ≡ least_with least number }
{
    match least {
        Some(least) if least.get() < number.get() => least,
        _ => number,
    }
}

/// The session's work over an open store, and what the last command met.
#[derive(Drop)]
pub struct Session {
    pub(crate) alloc: Global,
    pub(crate) store: Store,
    pub(crate) work: Work,
    pub(crate) met: Met,
}

impl Session {
    ghost use Rattle.ip_session.specs.Session.{IsIn, IsServing, IsWorking, state_in, HasWords, IsAnswered, GoesIn, CutIn};

    /// A session begins idle, with the empty work.
    pub fn new(alloc: Global, store: Store) -> Self
        ensures store { result.store ≡ store }
        ensures met { result.met ≡ met_nothing }
        ensures is_in { (r : Repository) → IsOf store.held r → IsIn result r }
        ensures state { store.held.collection ≡ None → (r : Repository) → state_in result r no_view ≡ opened r }
        ensures lawful { (records : ℕ → Option Record) (r : Repository) → IsLawful records r result.work no_view }
    {
        Session {
            alloc,
            store,
            work: Work::empty(alloc),
            met: met_only(false),
        }
    }

    /// What the last command met.
    pub fn met(&self) -> Met
        ensures { result ≡ self.now.met }
    {
        self.met
    }

    // Makes a retained commit a parent of the work.
    fn add_parent(&mut self, number: Number) -> Reply
        requires met { self.old.met ≡ met_only false }
        requires tables { (r : Repository) × IsIn self.old r × IsTrue (is_retained r number) }
        ensures tables { (r : Repository) → IsIn self.old r → IsTrue (is_retained r number) → IsIn self.new r }
        ensures meets_none { MeetsNone self.new.met }
        ensures tells_none { TellsNone result }
        ensures same_store { self.new.store.held ≡ self.old.store.held }
        ensures wanted { result ≡ Reply.Memory → length self.old.work.parents < PARENTS_MAX }
        ensures answered { (records : ℕ → Option Record) (r : Repository) (v : View) → IsOf self.old.store.held r → IsLawful records r self.old.work v → IsThere r self.old.work.least → IsTrue (is_retained r number) →
            (target : Target) → resolve r target ≡ Ok number → IsAnswered records self.old self.new r v (Command.Parent target) result }
    {
        let parents = self.work.parents.as_slice();
        if parents.contains(&number) {
            return Reply::Accepted;
        }
        if parents.len() >= PARENTS_MAX {
            return Reply::Limit(Limit::Parents);
        }
        if self.work.parents.push(number).is_err() {
            return refuse(&mut self.met);
        }
        self.work.least = Some(least_with(self.work.least, number));
        Reply::Accepted
    }

    // Makes the commit that a reference names a parent of the work.
    fn parent(&mut self, target: Target) -> Reply
        requires met { self.old.met ≡ met_only false }
        requires tables { IsServing self.old }
        ensures tables { (r : Repository) → IsIn self.old r → IsIn self.new r }
        ensures meets_none { MeetsNone self.new.met }
        ensures tells_none { TellsNone result }
        ensures same_store { self.new.store.held ≡ self.old.store.held }
        ensures answered { (records : ℕ → Option Record) (r : Repository) (v : View) → IsOf self.old.store.held r → IsLawful records r self.old.work v →
            IsAnswered records self.old self.new r v (Command.Parent target) result }
        ensures memory { Wants self.old self.new (Command.Parent target) (Ok result) }
    {
        if let Some(number) = self.store.given_up(self.work.least) {
            return Reply::GivenUp(number);
        }
        match resolve(&self.store, target) {
            Ok(number) => self.add_parent(number),
            Err(reply) => reply,
        }
    }

    // The branches, and the names of their commits.
    fn branches(&mut self) -> Reply
        requires met { self.old.met ≡ met_only false }
        requires tables { IsServing self.old }
        ensures tables { (r : Repository) → IsIn self.old r → IsIn self.new r }
        ensures meets_none { MeetsNone self.new.met }
        ensures tells_none { TellsNone result }
        ensures same_store { self.new.store.held ≡ self.old.store.held }
        ensures answered { (records : ℕ → Option Record) (r : Repository) (v : View) → IsOf self.old.store.held r → IsLawful records r self.old.work v →
            IsAnswered records self.old self.new r v Command.Branches result }
    {
        match self.store.branches(self.alloc) {
            Ok(heads) => Reply::Branches(heads),
            Err(_) => refuse(&mut self.met),
        }
    }

    // A commit and its ancestors.
    fn log(&mut self, target: Target) -> Reply
        requires met { self.old.met ≡ met_only false }
        requires tables { IsServing self.old }
        ensures tables { (r : Repository) → IsIn self.old r → IsIn self.new r }
        ensures meets_none { MeetsNone self.new.met }
        ensures tells_none { TellsNone result }
        ensures same_store { self.new.store.held ≡ self.old.store.held }
        ensures answered { (records : ℕ → Option Record) (r : Repository) (v : View) → IsOf self.old.store.held r → IsLawful records r self.old.work v →
            IsAnswered records self.old self.new r v (Command.Log target) result }
        ensures memory { Wants self.old self.new (Command.Log target) (Ok result) }
    {
        let number = match resolve(&self.store, target) {
            Ok(number) => number,
            Err(reply) => return reply,
        };
        match self.store.log(self.alloc, number) {
            Ok(names) => Reply::Log(Items::of(names)),
            Err(_) => refuse(&mut self.met),
        }
    }

    // The least common ancestors of two commits.
    fn lcas(&mut self, one: Target, other: Target) -> Reply
        requires met { self.old.met ≡ met_only false }
        requires tables { IsServing self.old }
        ensures tables { (r : Repository) → IsIn self.old r → IsIn self.new r }
        ensures meets_none { MeetsNone self.new.met }
        ensures tells_none { TellsNone result }
        ensures same_store { self.new.store.held ≡ self.old.store.held }
        ensures answered { (records : ℕ → Option Record) (r : Repository) (v : View) → IsOf self.old.store.held r → IsLawful records r self.old.work v →
            IsAnswered records self.old self.new r v (Command.Lcas one other) result }
        ensures memory { Wants self.old self.new (Command.Lcas one other) (Ok result) }
    {
        let one = match resolve(&self.store, one) {
            Ok(number) => number,
            Err(reply) => return reply,
        };
        let other = match resolve(&self.store, other) {
            Ok(number) => number,
            Err(reply) => return reply,
        };
        match self.store.lcas(self.alloc, one, other) {
            Ok(names) => Reply::Lcas(Items::of(names)),
            Err(_) => refuse(&mut self.met),
        }
    }

    // The numbers of the store.
    fn stat(&self) -> Reply
        ensures { (r : Repository) → IsOf self.now.store.held r → result ≡ Reply.Stat r.floor (next r) (len r.branches) (phase_at (phase_of self.now.store.held.collection)) }
    {
        Reply::Stat {
            floor: self.store.floor(),
            next: self.store.next(),
            branches: self.store.branch_count(),
            at: match self.store.phase() {
                Phase::Idle => None,
                Phase::Collecting { commit, .. } => Some(commit),
            },
        }
    }

    // Runs a command.
    fn run<G: Ground, P: Spawner, D: Decides>(
        &mut self,
        dir: &str,
        ground: &mut G,
        spawner: &mut P,
        command: Command,
        rules: &D,
    ) -> Result<Reply, SessionEnd>
        requires words { HasWords command }
        requires met { self.old.met ≡ met_only false }
        requires tables { IsServing self.old }
        requires child { P.held spawner.old ≡ child_of self.old.store.held.collection }
        ensures ran { Ran (IsTrue G.tells) (IsTrue G.tells × IsDecisive (D.rule rules.now)) (D.rule rules.now) (G.told ground.old) (G.told ground.new) (G.counts_of ground.old) (G.counts_of ground.new) P.tells (P.held spawner.new) dir.now (P.told spawner.old) (P.told spawner.new)
            (P.counts_of spawner.old) (P.counts_of spawner.new) self.old self.new command result }
        ensures still { AsksNoGround command → (ground.new ≡ ground.old) × IsOk result }
    {
        match command {
            // It asks nothing of the ground.
            Command::Empty => {
                self.work = Work::empty(self.alloc);
                Ok(Reply::Accepted)
            }
            Command::Parent(target) => Ok(self.parent(target)),
            Command::Branches => Ok(self.branches()),
            Command::Log(target) => Ok(self.log(target)),
            Command::Lcas { one, other } => Ok(self.lcas(one, other)),
            Command::Hash(bytes) => Ok(Reply::Hash(Hash(Sha256::digest(bytes.as_slice())))),
            Command::Stat => Ok(self.stat()),
            // It reads records, and changes no file.
            Command::Checkout(target) => self.checkout(ground, target),
            Command::Set { path, contents } => self.set(ground, path, contents),
            Command::Rm(path) => self.remove(ground, path),
            Command::Graft { target, from, to } => self.graft(ground, target, from, to),
            Command::Get(path) => self.get(ground, path),
            Command::List(path) => self.list(ground, path),
            Command::Cat { target, path } => self.cat(ground, target, path),
            Command::Show(target) => self.show(ground, target),
            // It may change files.
            Command::Commit { branch, info } => self.commit(ground, branch, info),
            Command::Merge {
                target,
                branch,
                info,
            } => self.merge(ground, target, branch, info, rules),
            Command::Branch { name, target } => self.set_branch(ground, name, target),
            Command::BranchRm(name) => self.remove_branch(ground, name),
            // It speaks to the child of a collection.
            Command::Collect(target) => self.collect(dir, ground, spawner, target),
            Command::Look => self.look(ground, spawner),
            Command::Finish => self.finish(ground, spawner),
            Command::Cancel => self.cancel(ground, spawner),
        }
    }

    /// Runs a line's command, a merge by these rules, and a child of a collection for the store in this folder. At `Err` a fault of the ground or of its files cut it short, and the session has ended.
    /// Damage that it met ends it as `Damaged`, and was counted by the ground; at any other end, and at each answer, the count of damages is what it was.
    pub fn step<G: Ground, P: Spawner, D: Decides>(
        &mut self,
        dir: &str,
        ground: &mut G,
        spawner: &mut P,
        line: &[u8],
        rules: &D,
    ) -> Result<Reply, SessionEnd>
        requires tables { IsServing self.old }
        requires child { P.held spawner.old ≡ child_of self.old.store.held.collection }
        ensures child { P.held spawner.new ≡ child_of self.new.store.held.collection }
        ensures asked { Spawns P.tells dir.now (P.told spawner.old) (P.told spawner.new) self.old self.new line.now result (P.counts_of spawner.old) (P.counts_of spawner.new) }
        ensures tables { IfOk result (λ reply. IsServing self.new) }
        ensures goes { IsTrue G.tells → IsDecisive (D.rule rules.now) → (r : Repository) (v : View) → IsWorking (G.told ground.old) self.old r v →
            IfOk result (GoesIn (D.rule rules.now) (G.told ground.old) (G.told ground.new) self.old self.new r v line.now) }
        ensures placed { IsTrue G.tells → IsDecisive (D.rule rules.now) → (r : Repository) (v : View) (here : IsWorking (G.told ground.old) self.old r v) →
            IfOk result (PlacedIn (D.rule rules.now) (image_records here.holds) self.old.store.held.slot self.old.store.held.unswept self.new.store.held.slot (state_in self.old r v) v line.now) }
        // A look looks at so many records at most.
        ensures bounded { IsTrue G.tells → IsDecisive (D.rule rules.now) → (r : Repository) (v : View) (here : IsWorking (G.told ground.old) self.old r v) → IsLineOf Command.Look line.now →
            IfOk result (IsBoundedIn here.holds.stands.standing.records self.old.store.held.collection) }
        ensures clear { IsTrue G.tells → (r : Repository) (v : View) → IsWorking (G.told ground.old) self.old r v →
            IfOk result (ClearIn (G.told ground.old) (G.told ground.new) self.old self.new line.now) }
        ensures cut { IsTrue G.tells → IsDecisive (D.rule rules.now) → (r : Repository) (v : View) → IsWorking (G.told ground.old) self.old r v →
            OnErr result (CutIn (D.rule rules.now) (G.told ground.old) (G.told ground.new) self.old self.new r v line.now) }
        ensures quiet { IfOk result (QuietIfLong self.new.met (G.counts_of ground.old) (G.counts_of ground.new)) }
        // Behind a line that takes none memory is wanted only where the command asks for some.
        ensures memory { WantsIn self.old self.new line.now result }
        ensures counts { CountsIn line.now result self.new.met (G.counts_of ground.old) (G.counts_of ground.new) }
        ensures cause { IsDecisive (D.rule rules.now) → IfErr result (EndsBy (IsHeld G.tells (G.told ground.old) self.old)) }
        // Behind damage no file has changed: at most a child that was heard of is settled.
        ensures untouched { IsTrue G.tells → MetDamage result → StillIn self.old.store.held (G.told ground.old) (G.told ground.new) line.now }
        // A line that asks nothing of the ground leaves it as it is, and is answered; one that is no command is such a line.
        ensures still { ((command : Command) → IsLineOf command line.now → AsksNoGround command) → (ground.new ≡ ground.old) × IsOk result }
    {
        self.met = met_only(false);
        match read_line(self.alloc, line) {
            Ok(command) => self.run(dir, ground, spawner, command, rules),
            Err(LineFault::Bad(at)) => Ok(Reply::Bad(at)),
            Err(LineFault::Memory) => Ok(refuse(&mut self.met)),
        }
    }

    /// Runs a line's command, a merge by these rules, and writes its reply's text into an empty one. There is room for `REPLY_ROOM` bytes; a longer text
    /// may be refused memory, and then the reply is that. At `Err` a fault of the ground or of its files cut the command
    /// short: it has no text, and the session has ended.
    pub fn answer<G: Ground, P: Spawner, D: Decides>(
        &mut self,
        dir: &str,
        ground: &mut G,
        spawner: &mut P,
        line: &[u8],
        rules: &D,
        text: &mut Vec<u8>,
    ) -> Result<(), SessionEnd>
        requires empty { text.old.items ≡ [] }
        requires room { REPLY_ROOM ≤ vec_capacity text.old }
        requires tables { IsServing self.old }
        requires child { P.held spawner.old ≡ child_of self.old.store.held.collection }
        ensures child { P.held spawner.new ≡ child_of self.new.store.held.collection }
        ensures room { vec_capacity text.old ≤ vec_capacity text.new }
        ensures silent { OnErr result (text.new.items ≡ []) }
        ensures tables { OnOk result (IsServing self.new) }
        ensures goes { OnOk result ((reply : Reply) × (text.new.items ≡ reply_text reply)
            × Spawns P.tells dir.now (P.told spawner.old) (P.told spawner.new) self.old self.new line.now (Ok reply) (P.counts_of spawner.old) (P.counts_of spawner.new)
            × CountsIn line.now (Ok reply) self.new.met (G.counts_of ground.old) (G.counts_of ground.new) × (IsTrue G.tells → IsDecisive (D.rule rules.now) → (r : Repository) (v : View) (here : IsWorking (G.told ground.old) self.old r v) →
            GoesIn (D.rule rules.now) (G.told ground.old) (G.told ground.new) self.old self.new r v line.now reply
            × PlacedIn (D.rule rules.now) (image_records here.holds) self.old.store.held.slot self.old.store.held.unswept self.new.store.held.slot (state_in self.old r v) v line.now reply
            × (IsLineOf Command.Look line.now → IsBoundedIn here.holds.stands.standing.records self.old.store.held.collection reply))
            × (IsTrue G.tells → (r : Repository) (v : View) → IsWorking (G.told ground.old) self.old r v → ClearIn (G.told ground.old) (G.told ground.new) self.old self.new line.now reply)) }
        ensures cut { IsTrue G.tells → IsDecisive (D.rule rules.now) → (r : Repository) (v : View) → IsWorking (G.told ground.old) self.old r v →
            OnErr result (CutIn (D.rule rules.now) (G.told ground.old) (G.told ground.new) self.old self.new r v line.now) }
        ensures ended { IfErr result (λ end. Spawns P.tells dir.now (P.told spawner.old) (P.told spawner.new) self.old self.new line.now (Err end) (P.counts_of spawner.old) (P.counts_of spawner.new)
            × CountsIf (counted_end end) (G.counts_of ground.old) (G.counts_of ground.new)) }
        ensures cause { IsDecisive (D.rule rules.now) → IfErr result (EndsBy (IsHeld G.tells (G.told ground.old) self.old)) }
        // Behind damage no file has changed: at most a child that was heard of is settled.
        ensures untouched { IsTrue G.tells → MetDamage result → StillIn self.old.store.held (G.told ground.old) (G.told ground.new) line.now }
        // A line that asks nothing of the ground leaves it as it is, and is answered; one that is no command is such a line.
        ensures still { ((command : Command) → IsLineOf command line.now → AsksNoGround command) → (ground.new ≡ ground.old) × IsOk result }
    {
        match self.step(dir, ground, spawner, line, rules) {
            Err(end) => Err(end),
            Ok(reply) => {
                put_reply(&reply, &mut self.met, text);
                Ok(())
            }
        }
    }
}

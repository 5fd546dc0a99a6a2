// A script that is drawn, and what it has to be answered: by the model's machine, which knows of no collection, and around it by what was given up, which
// collection runs, and what the work took from.
use crate::children::Children;
use crate::collections::Running;
use ip_base::{Blob, Hash, Hashes, Info, Items, Number};
use ip_merge::Decides;
use ip_model::Machine;
use ip_script::{Command, Reply, Target, put_hex, read_line, reply_text};
use ip_spec::reply::Heads;
use std::alloc::Global;
use std::test::Fail;

/// A script, and its replies.
#[derive(Drop)]
pub struct Drawn {
    pub alloc: Global,
    seed: u64,
    // how many lines may still be put
    most: u64,
    machine: Machine,
    pub script: Vec<u8>,
    pub replies: Vec<u8>,
    // how many bytes of both stand before what is asked behind a stop
    script_before: usize,
    replies_before: usize,
    // the names of all commits, by their numbers, and the number of the first that was not given up
    pub commits: Vec<Hash>,
    pub floor: u64,
    pub children: Children,
    pub running: Option<Running>,
    // the numbers of the work's parents, and the least of all commits that it took from
    parents: Vec<u64>,
    least: u64,
    /// What `{=}` and `{n}` stand for.
    pub same: String,
    pub turn: u64,
}

// Whether a line is refused where the work took from what was given up.
fn is_on_work(command: &Command) -> bool {
    match command {
        Command::Set { .. } | Command::Rm(_) | Command::Graft { .. } | Command::Parent(_) => true,
        Command::Get(_) | Command::List(_) | Command::Commit { .. } => true,
        _ => false,
    }
}

// The commit that a line names first.
fn target_of(command: &Command) -> Option<&Target> {
    match command {
        Command::Checkout(target) | Command::Parent(target) => Some(target),
        Command::Show(target) | Command::Log(target) => Some(target),
        Command::Graft { target, .. } | Command::Cat { target, .. } => Some(target),
        Command::Branch { target, .. } => Some(target),
        Command::Lcas { one, .. } => Some(one),
        _ => None,
    }
}

impl Drawn {
    /// An empty script, of which so many lines are put at most. Equal seeds draw the same.
    pub fn new(alloc: Global, seed: u64, most: u64) -> Drawn {
        Drawn {
            alloc,
            seed,
            most,
            machine: Machine::none(alloc),
            script: Vec::new(alloc),
            replies: Vec::new(alloc),
            script_before: 0,
            replies_before: 0,
            commits: Vec::new(alloc),
            floor: 0,
            children: Children::none(alloc),
            running: None,
            parents: Vec::new(alloc),
            least: u64::MAX,
            same: String::new(alloc),
            turn: 0,
        }
    }

    /// The next of a row of numbers that look random, below a bound.
    pub fn draw(&mut self, bound: u64) -> u64 {
        self.seed = self
            .seed
            .wrapping_mul(6364136223846793005)
            .wrapping_add(1442695040888963407);
        (self.seed >> 33) % bound.max(1)
    }

    /// From here on lines are put again, and they are those `behind`.
    pub fn begin_again(&mut self) {
        self.most = u64::MAX;
        self.script_before = self.script.len();
        self.replies_before = self.replies.len();
    }

    /// The script from there on.
    pub fn behind(&self) -> &[u8] {
        self.script.get(self.script_before..).unwrap_or(&[])
    }

    /// The replies from there on.
    pub fn told(&self) -> &[u8] {
        self.replies.get(self.replies_before..).unwrap_or(&[])
    }

    /// The number of the next commit.
    pub fn next(&self) -> u64 {
        self.commits.len() as u64
    }

    /// The name of a commit, and zeros for none.
    pub fn name_of(&self, number: u64) -> Hash {
        match self.commits.get(number as usize) {
            Some(name) => *name,
            None => Hash([0; 32]),
        }
    }

    /// Puts the name of a commit from a number on as lines have it, seldom of none.
    pub fn put_commit_from(&mut self, from: u64, out: &mut String) -> Result<(), Fail> {
        let bound = self.next().saturating_sub(from).saturating_add(1);
        let number = from.saturating_add(self.draw(bound));
        let mut digits = Vec::new(self.alloc);
        put_hex(self.name_of(number).as_slice(), &mut digits)?;
        let Ok(digits) = str::from_utf8(&digits) else {
            return Err("no digits")?;
        };
        out.push_str("@")?;
        Ok(out.push_str(digits)?)
    }

    /// Puts the branch that is at the commit of the least number; `none`, where there is none.
    pub fn put_lowest(&mut self, out: &mut String) -> Result<(), Fail> {
        let heads = self.heads()?;
        let mut least = u64::MAX;
        let mut lowest = b"none".as_slice();
        for head in heads.as_slice() {
            if let Some(number) = self.named(&head.name)
                && number < least
            {
                least = number;
                lowest = head.branch.as_slice();
            }
        }
        match str::from_utf8(lowest) {
            Ok(lowest) => Ok(out.push_str(lowest)?),
            Err(_) => Err("no text")?,
        }
    }

    /// Puts a line with the reply to it. None is put where the model has no reply.
    pub fn put<D: Decides>(&mut self, line: &str, rules: &D) -> Result<(), Fail> {
        if self.most == 0 {
            return Ok(());
        }
        let Ok(command) = read_line(self.alloc, line.as_bytes()) else {
            return Err(Fail::new(format_args!("no command: {line:?}")));
        };
        match self.answer(command, rules)? {
            Some(reply) => self.say(line, &reply, rules),
            None => Ok(()),
        }
    }

    fn say<D: Decides>(&mut self, line: &str, reply: &Reply, rules: &D) -> Result<(), Fail> {
        self.most = self.most.saturating_sub(1);
        self.script.extend_from_slice(line.as_bytes())?;
        self.script.push(b'\n')?;
        reply_text(reply, &mut self.replies)?;
        if let Reply::Committed(name) | Reply::Merged(name) = reply {
            self.commits.push(*name)?;
        }
        if let Reply::Started(_) = reply {
            return self.start(rules);
        }
        Ok(())
    }

    fn answer<D: Decides>(&mut self, command: Command, rules: &D) -> Result<Option<Reply>, Fail> {
        match command {
            Command::Merge {
                target,
                branch,
                info,
            } => self.merge(&target, branch, info, rules),
            command => self.reply_to(&command),
        }
    }

    // Of a merge behind a collection the base may be a commit that was given up, which the machine has still: there is no reply.
    fn merge<D: Decides>(
        &mut self,
        target: &Target,
        branch: Blob,
        info: Info,
        rules: &D,
    ) -> Result<Option<Reply>, Fail> {
        if self.floor > 0 || self.running.is_some() {
            return Ok(None);
        }
        let reply = self.machine.merge(self.alloc, target, branch, info, rules)?;
        Ok(Some(reply))
    }

    fn reply_to(&mut self, command: &Command) -> Result<Option<Reply>, Fail> {
        match command {
            Command::Collect(target) => self.collect(target),
            Command::Look => Ok(Some(self.look()?)),
            Command::Finish => Ok(Some(self.finish()?)),
            Command::Cancel => Ok(Some(self.cancel()?)),
            Command::Commit { branch, .. } => self.commit(command, branch),
            _ => Ok(Some(self.plain(command)?)),
        }
    }

    // The machine's reply.
    fn step(&mut self, command: &Command) -> Result<Reply, Fail> {
        match self.machine.step(self.alloc, command)? {
            Some(reply) => Ok(reply),
            None => Err("not in the model")?,
        }
    }

    // The same where nothing that the line names was given up, without what was.
    fn plain(&mut self, command: &Command) -> Result<Reply, Fail> {
        if let Some(refusal) = self.refusal(command)? {
            return Ok(refusal);
        }
        let reply = self.step(command)?;
        self.take(command, &reply)?;
        match self.less(&reply)? {
            Some(less) => Ok(less),
            None => Ok(reply),
        }
    }

    // Nothing is answered where a commit of the same name was given up.
    fn commit(&mut self, command: &Command, branch: &Blob) -> Result<Option<Reply>, Fail> {
        if let Some(refusal) = self.given_up() {
            return Ok(Some(refusal));
        }
        if !self.is_moved(branch)?
            && let Some(refusal) = self.leaving(self.least)
        {
            return Ok(Some(refusal));
        }
        let reply = self.step(command)?;
        if let Reply::Existing(name) = &reply
            && self.is_gone(name)
        {
            return Ok(None);
        }
        if let Reply::Committed(_) = &reply {
            self.work_on(self.next())?;
        }
        Ok(Some(reply))
    }

    // The work goes on from a commit alone.
    fn work_on(&mut self, number: u64) -> Result<(), Fail> {
        self.parents.clear();
        self.least = number;
        Ok(self.parents.push(number)?)
    }

    // What the work takes from where a line was accepted.
    fn take(&mut self, command: &Command, reply: &Reply) -> Result<(), Fail> {
        match (command, reply) {
            (Command::Empty, _) => {
                self.parents.clear();
                self.least = u64::MAX;
                Ok(())
            }
            (Command::Checkout(target), Reply::At(_)) => match self.number_of(target)? {
                Some(number) => self.work_on(number),
                None => Ok(()),
            },
            (Command::Parent(target), Reply::Accepted) => self.take_from(target, true),
            (Command::Graft { target, .. }, Reply::Accepted) => self.take_from(target, false),
            _ => Ok(()),
        }
    }

    fn take_from(&mut self, target: &Target, is_parent: bool) -> Result<(), Fail> {
        let Some(number) = self.number_of(target)? else {
            return Ok(());
        };
        self.least = self.least.min(number);
        if is_parent {
            self.parents.push(number)?;
        }
        Ok(())
    }

    /// The branches, and the names of their commits.
    pub fn heads(&mut self) -> Result<Heads, Fail> {
        match self.step(&Command::Branches)? {
            Reply::Branches(heads) => Ok(heads),
            _ => Err("no branches")?,
        }
    }

    /// The number of a commit by its name, also where it was given up.
    pub fn named(&self, name: &Hash) -> Option<u64> {
        let mut number = 0u64;
        for other in &self.commits {
            if other.cmp(name).is_eq() {
                return Some(number);
            }
            number = number.saturating_add(1);
        }
        None
    }

    /// The number of the commit that a line names.
    pub fn number_of(&mut self, target: &Target) -> Result<Option<u64>, Fail> {
        match target {
            Target::Commit(name) => Ok(self.named(name)),
            Target::Branch(branch) => self.head(branch),
        }
    }

    // That of a branch.
    fn head(&mut self, branch: &Blob) -> Result<Option<u64>, Fail> {
        let heads = self.heads()?;
        for head in heads.as_slice() {
            if head.branch.as_slice() == branch.as_slice() {
                return Ok(self.named(&head.name));
            }
        }
        Ok(None)
    }

    // Whether a branch is at a commit from which the work doesn't go on.
    fn is_moved(&mut self, branch: &Blob) -> Result<bool, Fail> {
        match self.head(branch)? {
            Some(number) => Ok(!self.parents.contains(&number)),
            None => Ok(false),
        }
    }

    fn is_gone(&self, name: &Hash) -> bool {
        match self.named(name) {
            Some(number) => number < self.floor,
            None => false,
        }
    }

    /// The refusal of a line that names a commit which was given up.
    pub fn gone(&self, target: &Target) -> Option<Reply> {
        match target {
            Target::Commit(name) if self.is_gone(name) => Some(Reply::NoCommit(*name)),
            _ => None,
        }
    }

    // That of a line on a work which took from one.
    fn given_up(&self) -> Option<Reply> {
        if self.least < self.floor {
            return Some(Reply::GivenUp(Number(self.least)));
        }
        None
    }

    // That of a line by which something would rest on a commit below the one at which a collection runs.
    fn leaving(&self, number: u64) -> Option<Reply> {
        match &self.running {
            Some(running) if number < running.at => Some(Reply::Leaving(Number(number))),
            _ => None,
        }
    }

    fn refusal(&mut self, command: &Command) -> Result<Option<Reply>, Fail> {
        if is_on_work(command) && self.least < self.floor {
            return Ok(self.given_up());
        }
        let Some(target) = target_of(command) else {
            return Ok(None);
        };
        if let Some(refusal) = self.gone(target) {
            return Ok(Some(refusal));
        }
        let Some(number) = self.number_of(target)? else {
            return Ok(None);
        };
        match command {
            Command::Branch { .. } => Ok(self.leaving(number)),
            Command::Lcas { other, .. } => Ok(self.gone(other)),
            _ => Ok(None),
        }
    }

    fn retained(&self, names: &Hashes) -> Result<Hashes, Fail> {
        let mut kept = Items::empty(self.alloc);
        for name in names.as_slice() {
            if !self.is_gone(name) {
                kept.push(*name)?;
            }
        }
        Ok(kept)
    }

    // What is left of the machine's reply once commits were given up, where that is another one.
    fn less(&self, reply: &Reply) -> Result<Option<Reply>, Fail> {
        match reply {
            Reply::Log(names) => Ok(Some(Reply::Log(self.retained(names)?))),
            Reply::Lcas(names) => Ok(Some(Reply::Lcas(self.retained(names)?))),
            Reply::Stat { next, branches, .. } => Ok(Some(Reply::Stat {
                floor: Number(self.floor),
                next: *next,
                branches: *branches,
                at: self.running_at(),
            })),
            _ => Ok(None),
        }
    }

    fn running_at(&self) -> Option<Number> {
        match &self.running {
            Some(running) => Some(Number(running.at)),
            None => None,
        }
    }

    /// The store is served again, with no stop or behind one: no collection runs, and the work is empty.
    pub fn reopen<D: Decides>(&mut self, keep: Option<bool>, rules: &D) -> Result<(), Fail> {
        if self.running.is_some() {
            self.children.call(false)?;
            self.running = None;
        }
        self.children.cut(self.script.len(), keep)?;
        self.put("empty", rules)
    }
}

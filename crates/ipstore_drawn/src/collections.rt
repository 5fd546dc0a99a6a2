// Collections, as the model answers them.
use crate::drawn::Drawn;
use crate::wrong::{difference, garbled};
use ip_base::{Blob, Exit, Number};
use ip_merge::Decides;
use ip_script::{Reply, Target};
use ip_spawn::Plan;
use ip_spec::reply::{Difference, Produced};
use std::test::Fail;

// The most collections that are begun in a script.
const COLLECTIONS: u64 = 8;

/// The number of the commit at which a collection runs, how its child goes on, and what is wrong with the pair that it leaves.
#[derive(Clone, Copy)]
pub struct Running {
    pub at: u64,
    plan: Plan,
    wrong: Option<Difference>,
}

// What is answered where the child has ended.
fn end_of(running: &Running) -> Reply {
    if running.plan.exit != Exit::Code(0) {
        return Reply::RejectedExit(running.plan.exit);
    }
    match running.wrong {
        Some(difference) => Reply::Rejected(difference),
        None => Reply::Collected {
            floor: Number(running.at),
            left: 0,
        },
    }
}

impl Drawn {
    // The spawner is called, which fails now and then. Whether it does.
    fn is_failing(&mut self) -> Result<bool, Fail> {
        let is_failing = self.draw(12) == 0;
        self.children.call(is_failing)?;
        Ok(is_failing)
    }

    // How a child goes.
    fn plan(&mut self) -> Plan {
        let looks = self.draw(3);
        let exit = match self.draw(20) {
            0 => Exit::Signal,
            1 => Exit::Code(3),
            _ => Exit::Code(0),
        };
        Plan { looks, exit }
    }

    // The first branch at a commit of a lower number.
    fn holder(&mut self, number: u64) -> Result<Option<Reply>, Fail> {
        let heads = self.heads()?;
        for head in heads.as_slice() {
            if let Some(other) = self.named(&head.name)
                && other < number
            {
                let branch = Blob::copy_of(self.alloc, head.branch.as_slice())?;
                return Ok(Some(Reply::Held(branch)));
            }
        }
        Ok(None)
    }

    // The refusal of a line that names nothing.
    fn unknown(&self, target: &Target) -> Result<Reply, Fail> {
        match target {
            Target::Commit(name) => Ok(Reply::NoCommit(*name)),
            Target::Branch(name) => Ok(Reply::NoBranch(name.copy(self.alloc)?)),
        }
    }

    /// `collect`. Nothing is answered where enough were begun.
    pub fn collect(&mut self, target: &Target) -> Result<Option<Reply>, Fail> {
        if let Some(running) = &self.running {
            return Ok(Some(Reply::Busy(self.name_of(running.at))));
        }
        if let Some(refusal) = self.gone(target) {
            return Ok(Some(refusal));
        }
        let Some(at) = self.number_of(target)? else {
            return Ok(Some(self.unknown(target)?));
        };
        if let Some(refusal) = self.holder(at)? {
            return Ok(Some(refusal));
        }
        if self.children.attempts >= COLLECTIONS {
            return Ok(None);
        }
        Ok(Some(self.begin(at)?))
    }

    fn begin(&mut self, at: u64) -> Result<Reply, Fail> {
        self.children.attempts = self.children.attempts.saturating_add(1);
        if self.is_failing()? {
            return Ok(Reply::StartFault);
        }
        let plan = self.plan();
        self.running = Some(Running {
            at,
            plan,
            wrong: None,
        });
        Ok(Reply::Started(self.name_of(at)))
    }

    /// The child that the script starts last leaves what the worker writes, or seldom something else.
    pub fn start<D: Decides>(&mut self, rules: &D) -> Result<(), Fail> {
        let Some(running) = self.running else {
            return Ok(());
        };
        let (mapping, prefix) = self.children.worked(&self.script, running.plan, rules)?;
        let (mut mapping_left, mut prefix_left) = (Some(mapping), Some(prefix));
        let mut wrong = None;
        match self.draw(10) {
            0 => (mapping_left, wrong) = self.another(Produced::Mapping, mapping_left)?,
            1 => (prefix_left, wrong) = self.another(Produced::Prefix, prefix_left)?,
            _ => (),
        }
        self.children.leave(mapping_left, prefix_left)?;
        self.running = Some(Running {
            at: running.at,
            plan: running.plan,
            wrong,
        });
        Ok(())
    }

    // Something else in place of a file, and how that differs.
    fn another(
        &mut self,
        file: Produced,
        valid: Option<Vec<u8>>,
    ) -> Result<(Option<Vec<u8>>, Option<Difference>), Fail> {
        let Some(valid) = valid else {
            return Ok((None, None));
        };
        let left = garbled(self, &valid)?;
        let wrong = difference(file, &valid, &left);
        Ok((left, wrong))
    }

    // The child has ended.
    fn end(&mut self, running: &Running) -> Reply {
        self.running = None;
        let reply = end_of(running);
        if let Reply::Collected { floor, .. } = &reply {
            self.floor = floor.get();
        }
        reply
    }

    /// `look`.
    pub fn look(&mut self) -> Result<Reply, Fail> {
        let Some(running) = self.running else {
            return Ok(Reply::Idle);
        };
        if self.is_failing()? {
            return Ok(Reply::WaitFault);
        }
        if running.plan.looks == 0 {
            return Ok(self.end(&running));
        }
        self.running = Some(Running {
            at: running.at,
            plan: Plan {
                looks: running.plan.looks.saturating_sub(1),
                exit: running.plan.exit,
            },
            wrong: running.wrong,
        });
        Ok(Reply::Running)
    }

    /// `finish`.
    pub fn finish(&mut self) -> Result<Reply, Fail> {
        let Some(running) = self.running else {
            return Ok(Reply::Idle);
        };
        if self.is_failing()? {
            return Ok(Reply::WaitFault);
        }
        Ok(self.end(&running))
    }

    /// `cancel`. A child that can't be killed is an orphan.
    pub fn cancel(&mut self) -> Result<Reply, Fail> {
        if self.running.is_none() {
            return Ok(Reply::Idle);
        }
        self.running = None;
        if self.is_failing()? {
            return Ok(Reply::CancelledOrphan);
        }
        Ok(Reply::Cancelled)
    }
}

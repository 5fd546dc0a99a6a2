// The children of a script, and the runs in which what each of them leaves is found out: as that rests on the store, the script up to its start is served for it.
ghost use Rattle.std.specs.Prelude.{◌≡◌, IfOk, None};

use ip_app::{ProgramRules, Silent, Status, run};
use ip_base::Blob;
use ip_ground::{Act, Acts, Bench, FileName, Ground};
use ip_merge::Decides;
use ip_script::Bytes;
use ip_spawn::{Plan, Scripted, Spawner};
use ip_worker::collect;
use std::alloc::Global;
use std::test::Fail;

// Of so many calls of the ground one leaves a mark, and there are so many marks: a start comes no more calls than that behind the one before it.
const STEP: u64 = 16;

const MARKS: u64 = 200;

/// Which call of the ground fails: one alone, or all from one on.
#[derive(Clone, Copy)]
pub enum Fault {
    Nothing,
    Call(u64),
    Stop(u64),
}

// Where a script is cut, and whether the ground is stopped there, and with what it is opened again.
#[derive(Clone, Copy)]
struct Cut {
    at: usize,
    keep: Option<bool>,
}

/// How a script is served: in chunks of so many bytes, by children that go by plans and leave files, with calls of the spawner that fail, and with cuts.
#[derive(Drop)]
pub struct Children {
    alloc: Global,
    pub size: String,
    plans: Vec<Plan>,
    fails: Vec<u64>,
    calls: u64,
    /// How many collections were begun.
    pub attempts: u64,
    left: Acts,
    // before which call of the ground the last child leaves something
    before: u64,
    cuts: Vec<Cut>,
}

/// How serving went.
#[derive(Drop)]
pub struct Served {
    ground: Bench,
    spawner: Scripted,
    pub status: Status,
    pub said: Vec<u8>,
}

impl Children {
    /// No child.
    pub fn none(alloc: Global) -> Children {
        Children {
            alloc,
            size: String::new(alloc),
            plans: Vec::new(alloc),
            fails: Vec::new(alloc),
            calls: 0,
            attempts: 0,
            left: Vec::new(alloc),
            before: 0,
            cuts: Vec::new(alloc),
        }
    }

    /// The spawner is called, and that fails where it is to.
    pub fn call(&mut self, is_failing: bool) -> Result<(), Fail> {
        if is_failing {
            self.fails.push(self.calls)?;
        }
        self.calls = self.calls.saturating_add(1);
        Ok(())
    }

    /// A script is cut behind so many bytes. The store is served again there: with no stop, or behind one, all that was written being kept, or what was
    /// synced alone.
    pub fn cut(&mut self, at: usize, keep: Option<bool>) -> Result<(), Fail> {
        Ok(self.cuts.push(Cut { at, keep })?)
    }

    /// The last child goes by this plan, and was started by a script's last line. What the worker writes for it: its mapping and its prefix.
    pub fn worked<D: Decides>(
        &mut self,
        script: &[u8],
        plan: Plan,
        rules: &D,
    ) -> Result<(Vec<u8>, Vec<u8>), Fail> {
        self.plans.push(plan)?;
        let mut acts = self.acts()?;
        put_marks(self.alloc, self.attempts, self.before, &mut acts)?;
        let mut served = self.serve(acts, script, Fault::Nothing, rules)?;
        let mark = mark_of(&mut served.ground, self.attempts)?;
        self.before = self.before.saturating_add(mark);
        served.work(self.alloc)?;
        let mapping = bytes_of(
            self.alloc,
            &mut served.ground,
            FileName::Mapping(self.attempts),
        )?;
        let prefix = bytes_of(
            self.alloc,
            &mut served.ground,
            FileName::Prefix(self.attempts),
        )?;
        Ok((mapping, prefix))
    }

    /// The last child leaves this.
    pub fn leave(&mut self, mapping: Option<Vec<u8>>, prefix: Option<Vec<u8>>) -> Result<(), Fail> {
        let (before, attempt) = (self.before, self.attempts);
        let done = Some(Vec::from_slice(self.alloc, b"IPDONE01")?);
        put_act(&mut self.left, before, FileName::Mapping(attempt), mapping)?;
        put_act(&mut self.left, before, FileName::Prefix(attempt), prefix)?;
        put_act(&mut self.left, before, FileName::Done(attempt), done)
    }

    /// Serves a script over a new store of which a call fails.
    pub fn served<D: Decides>(
        &self,
        script: &[u8],
        fault: Fault,
        rules: &D,
    ) -> Result<Served, Fail> {
        self.serve(self.acts()?, script, fault, rules)
    }

    // What the children do that have left something.
    fn acts(&self) -> Result<Acts, Fail> {
        let mut acts = Vec::new(self.alloc);
        for act in &self.left {
            let bytes = copied(self.alloc, &act.bytes)?;
            put_act(&mut acts, act.before, act.file, bytes)?;
        }
        Ok(acts)
    }

    // The children, none of which is started.
    fn spawner(&self) -> Result<Scripted, Fail>
        ensures { IfOk result (λ children. ⟦<Scripted as Spawner>⟧.held children ≡ None) }
    {
        let plans = Vec::from_slice(self.alloc, &self.plans)?;
        let fails = Vec::from_slice(self.alloc, &self.fails)?;
        Ok(Scripted::new(self.alloc, plans, fails))
    }

    fn serve<D: Decides>(
        &self,
        acts: Acts,
        script: &[u8],
        fault: Fault,
        rules: &D,
    ) -> Result<Served, Fail> {
        let alloc = self.alloc;
        let mut ground = ground_of(alloc, acts, fault)?;
        let mut spawner = self.spawner()?;
        let words = ["ipstore", "init", "mem", "--chunk", &self.size];
        let made = call(alloc, &words, b"", &mut ground, &mut spawner, rules)?;
        if made != Status::Done {
            return Err("no store was made")?;
        }
        let mut said = Vec::new(alloc);
        let (ground, status) = serve_pieces(
            alloc,
            ground,
            &mut spawner,
            &self.cuts,
            script,
            rules,
            &mut said,
        )?;
        Ok(Served {
            ground,
            spawner,
            status,
            said,
        })
    }
}

impl Served {
    // The worker writes the pair of the last child that was started.
    fn work(&mut self, alloc: Global) -> Result<(), Fail> {
        let Some(child) = self.spawner.started().last() else {
            return Err("none was started")?;
        };
        let job = child.job;
        if !job.valid() {
            return Err("no job")?;
        }
        match collect(alloc, &job, &mut self.ground) {
            Ok(_) => Ok(()),
            Err(_) => Err("no pair")?,
        }
    }

    /// What a script is answered behind a stop, all that was written being kept, or what was synced alone.
    pub fn told_again(self, alloc: Global, keep: bool, script: &[u8]) -> Result<Vec<u8>, Fail> {
        let mut ground = self.ground.after_stop(keep)?;
        let mut spawner = Scripted::new(alloc, Vec::new(alloc), Vec::new(alloc));
        let words = ["ipstore", "serve", "mem"];
        let status = call(
            alloc,
            &words,
            script,
            &mut ground,
            &mut spawner,
            &ProgramRules,
        )?;
        if status != Status::Done {
            return Err(Fail::new(format_args!("asked, it ended by {status:?}")));
        }
        Ok(ground.said(alloc)?)
    }
}

fn ground_of(alloc: Global, acts: Acts, fault: Fault) -> Result<Bench, Fail> {
    let mut fails = Vec::new(alloc);
    let mut stop = None;
    match fault {
        Fault::Nothing => (),
        Fault::Call(call) => fails.push(call)?,
        Fault::Stop(call) => stop = Some(call),
    }
    Ok(Bench::new(alloc, fails, stop, acts))
}

// The program is called with these words, and a script. How that ends.
fn call<P: Spawner, D: Decides>(
    alloc: Global,
    given: &[&str],
    script: &[u8],
    ground: &mut Bench,
    spawner: &mut P,
    rules: &D,
) -> Result<Status, Fail>
    requires child { P.held spawner.old ≡ None }
    ensures none_held { P.held spawner.new ≡ None }
{
    let mut words = Vec::new(alloc);
    for word in given {
        words.push(String::from_str(alloc, word)?)?;
    }
    let script = Blob::of(Vec::from_slice(alloc, script)?);
    let mut source = Bytes::new(script, Vec::new(alloc));
    Ok(run(
        alloc,
        &words,
        &mut source,
        ground,
        spawner,
        rules,
        &mut Silent,
    ))
}

// The ground with which a store is served again, with no stop or behind one.
fn reopened(ground: Bench, keep: Option<bool>) -> Result<Bench, Fail> {
    match keep {
        Some(keep) => Ok(ground.after_stop(keep)?),
        None => Ok(ground),
    }
}

// Serves a script that is cut at these places, up to the first piece that isn't served to its end. The ground then.
fn serve_pieces<P: Spawner, D: Decides>(
    alloc: Global,
    ground: Bench,
    spawner: &mut P,
    cuts: &[Cut],
    script: &[u8],
    rules: &D,
    said: &mut Vec<u8>,
) -> Result<(Bench, Status), Fail>
    requires child { P.held spawner.old ≡ None }
{
    let mut ground = ground;
    let mut from = 0;
    for cut in cuts {
        let piece = script.get(from..cut.at).unwrap_or(&[]);
        let status = serve_piece(alloc, &mut ground, spawner, piece, rules, said)?;
        if status != Status::Done {
            return Ok((ground, status));
        }
        ground = reopened(ground, cut.keep)?;
        from = cut.at;
    }
    let piece = script.get(from..).unwrap_or(&[]);
    let status = serve_piece(alloc, &mut ground, spawner, piece, rules, said)?;
    Ok((ground, status))
}

// Serves a piece of a script, and puts what is said to it behind what was said.
fn serve_piece<P: Spawner, D: Decides>(
    alloc: Global,
    ground: &mut Bench,
    spawner: &mut P,
    piece: &[u8],
    rules: &D,
    said: &mut Vec<u8>,
) -> Result<Status, Fail>
    requires child { P.held spawner.old ≡ None }
    ensures none_held { P.held spawner.new ≡ None }
{
    let before = ground.said(alloc)?.len();
    let words = ["ipstore", "serve", "mem"];
    let status = call(alloc, &words, piece, ground, spawner, rules)?;
    let all = ground.said(alloc)?;
    said.extend_from_slice(all.get(before..).unwrap_or(&[]))?;
    Ok(status)
}

fn bytes_of(alloc: Global, ground: &mut Bench, file: FileName) -> Result<Vec<u8>, Fail> {
    let Ok(Some(length)) = ground.length(file) else {
        return Err("no length")?;
    };
    let mut out = vec![in alloc; 0; length as usize]?;
    match ground.read(file, 0, &mut out) {
        Ok(_) => Ok(out),
        Err(_) => Err("not read")?,
    }
}

fn copied(alloc: Global, bytes: &Option<Vec<u8>>) -> Result<Option<Vec<u8>>, Fail> {
    match bytes {
        Some(bytes) => Ok(Some(Vec::from_slice(alloc, bytes)?)),
        None => Ok(None),
    }
}

fn put_act(
    acts: &mut Acts,
    before: u64,
    file: FileName,
    bytes: Option<Vec<u8>>,
) -> Result<(), Fail> {
    Ok(acts.push(Act {
        before,
        file,
        bytes,
    })?)
}

fn zeros(alloc: Global, count: usize) -> Result<Vec<u8>, Fail> {
    Ok(vec![in alloc; 0; count]?)
}

// By a child that has it, the done file of an attempt is made as long as calls went by from this one on, now and then.
fn put_marks(alloc: Global, attempt: u64, from: u64, acts: &mut Acts) -> Result<(), Fail> {
    for mark in 0..MARKS {
        let count = mark * STEP;
        put_act(
            acts,
            from.saturating_add(count),
            FileName::Done(attempt),
            Some(zeros(alloc, count as usize)?),
        )?;
    }
    Ok(())
}

// How many calls went by before the first of those that ask for it.
fn mark_of(ground: &mut Bench, attempt: u64) -> Result<u64, Fail> {
    for asked in 0..STEP {
        let Ok(mark) = ground.length(FileName::Done(attempt)) else {
            return Err("no length")?;
        };
        if let Some(mark) = mark {
            return Ok(mark.saturating_sub(asked));
        }
    }
    Err("too many calls")?
}

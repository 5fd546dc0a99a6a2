// A text, played.
use crate::checks::check;
use crate::leaves::{Leaves, put_left};
use crate::stage::{Played, play_open, restaged};
use crate::trials::test_each;
use ip_app::Status;
use ip_bench_text::{
    Act, Call, Child, Directive, Kind, Left, Play, Scene, Stand, Test, Trial, Whose, play_lines,
};
use std::alloc::Global;
use std::mem::replace;
use std::test::Fail;

// What lines are that are no directives.
#[derive(Clone, Copy, PartialEq, Eq)]
enum Mode {
    /// A transcript.
    Run,
    /// What a store is asked that is opened again.
    Asked,
    /// What it is answered where the last name stands.
    Stand,
}

// Plays a text.
#[derive(Drop)]
struct Player {
    alloc: Global,
    scene: Scene,
    /// What the children leave that were started so far.
    left: Vec<Leaves>,
    /// How the last call went; nothing where others did something behind it.
    played: Option<Played>,
    mode: Mode,
    /// The line of a reply in place of which another came.
    wrong: Option<u64>,
}

// How a call has ended, as its line on standard error says it; nothing where it was done.
fn ending_of(alloc: Global, status: Status) -> Result<String, Fail> {
    let mut line = Vec::new(alloc);
    if status.put_line(&mut line).is_err() {
        return Err("memory")?;
    }
    let Ok(text) = str::from_utf8(&line) else {
        return Err("no text")?;
    };
    let text = text.strip_prefix("ipstore: ").unwrap_or(text);
    Ok(String::from_str(alloc, text.trim())?)
}

fn another(wanted: &str, came: &str) -> Fail {
    Fail::new(format_args!("{wanted:?} was to come, and {came:?} came"))
}

// Names the first reply that is another than it has to be, or the line by which the call ended.
fn another_line(said: &str, want: &str, ending: &str) -> Fail {
    let mut replies = said.lines();
    for wanted in want.lines() {
        match replies.next() {
            Some(reply) if reply == wanted => (),
            Some(reply) => {
                return another(wanted, reply);
            }
            None => return another(wanted, ending),
        }
    }
    another("nothing more", replies.next().unwrap_or(ending))
}

fn another_reply(said: &[u8], want: &[u8], ending: &str) -> Fail {
    match (str::from_utf8(said), str::from_utf8(want)) {
        (Ok(said), Ok(want)) => another_line(said, want, ending),
        _ => Fail::new("a reply is no text"),
    }
}

// The line of the first reply in place of which another came, or none.
fn first_wrong(played: &Played, call: &Call) -> Option<u64> {
    let mut said = played.said.split_inclusive(|byte| *byte == b'\n');
    let mut wanted = call.replies.split_inclusive(|byte| *byte == b'\n');
    for place in &call.places {
        if said.next() != wanted.next() {
            return Some(*place);
        }
    }
    None
}

// A call went as it has to.
fn test_played(alloc: Global, played: &Played, call: &Call, ends: &str) -> Result<(), Fail> {
    let ending = ending_of(alloc, played.status)?;
    if played.said != call.replies || ending.as_str() != ends {
        return Err(another_reply(&played.said, &call.replies, &ending));
    }
    Ok(())
}

impl Player {
    fn new(alloc: Global) -> Result<Player, Fail> {
        Ok(Player {
            alloc,
            scene: Scene::new(alloc)?,
            left: Vec::new(alloc),
            played: None,
            mode: Mode::Run,
            wrong: None,
        })
    }

    // Begins with a new store.
    fn begin(&mut self) -> Result<(), Fail> {
        self.flush()?;
        self.scene = Scene::new(self.alloc)?;
        self.left = Vec::new(self.alloc);
        self.played = None;
        self.mode = Mode::Run;
        Ok(())
    }

    // Makes the open call, which has to end so.
    fn play(&mut self, ends: &str) -> Result<(), Fail> {
        put_left(&self.scene, &mut self.left)?;
        let played = play_open(&self.scene, &self.left)?;
        self.wrong = first_wrong(&played, &self.scene.open);
        test_played(self.alloc, &played, &self.scene.open, ends)?;
        self.played = Some(played);
        let call = replace(&mut self.scene.open, Call::new(self.alloc));
        Ok(self.scene.acts.push(Act::Play(call))?)
    }

    // Makes the open call to its end, if there is one.
    fn flush(&mut self) -> Result<(), Fail> {
        if self.scene.open.is_open() {
            return self.play("");
        }
        Ok(())
    }

    // One more act.
    fn act(&mut self, act: Act) -> Result<(), Fail> {
        self.flush()?;
        self.scene.acts.push(act)?;
        self.played = None;
        Ok(())
    }

    fn call(&mut self, words: String) -> Result<(), Fail> {
        self.flush()?;
        self.scene.open.words = Some(words);
        Ok(())
    }

    fn test(&mut self, test: &Test) -> Result<(), Fail> {
        self.flush()?;
        let mut played = match self.played.take() {
            Some(played) => played,
            None => restaged(&self.scene, &self.left)?,
        };
        check(self.alloc, &mut played, test)?;
        self.played = Some(played);
        Ok(())
    }

    fn each(&mut self, trial: Trial, counts: (u64, u64)) -> Result<(), Fail> {
        put_left(&self.scene, &mut self.left)?;
        test_each(&self.scene, &self.left, trial, counts)
    }

    fn fails(&mut self, whose: Whose, numbers: Vec<u64>) {
        match whose {
            Whose::Ground => self.scene.ground_fails = numbers,
            Whose::Source => self.scene.source_fails = numbers,
            Whose::Spawner => self.scene.spawner_fails = numbers,
        }
    }

    // What the child leaves that was planned last.
    fn leaves(&mut self, kind: Kind, left: Left) -> Result<(), Fail> {
        let Some(mut child) = self.scene.children.pop() else {
            return Err("no child is planned")?;
        };
        match kind {
            Kind::Mapping => child.mapping = left,
            Kind::Prefix => child.prefix = left,
            Kind::Done => child.done = left,
        }
        Ok(self.scene.children.push(child)?)
    }

    // From now on lines say what stands under a name.
    fn stand(&mut self, name: String) -> Result<(), Fail> {
        let replies = String::new(self.alloc);
        self.scene.stands.push(Stand { name, replies })?;
        self.mode = Mode::Stand;
        Ok(())
    }

    fn mark(&mut self, name: String) -> Result<(), Fail> {
        self.scene.open.put_mark(&name, self.alloc)?;
        self.scene.mark = name;
        Ok(())
    }

    fn raw(&mut self, bytes: &[u8]) -> Result<(), Fail> {
        Ok(
            self.scene
                .open
                .put_script(bytes, &self.scene.mark, self.alloc)?,
        )
    }

    // What is planned for a store.
    fn plan(&mut self, directive: Directive) -> Result<(), Fail> {
        match directive {
            Directive::Chunk(size) => self.scene.chunk = Some(size),
            Directive::Bare => self.scene.chunk = None,
            Directive::Fails(whose, numbers) => self.fails(whose, numbers),
            Directive::Stops(number) => self.scene.stop = Some(number),
            Directive::Pieces(most) => self.scene.pieces = most,
            Directive::Rules(name) => self.scene.rules = name,
            Directive::Child(plan) => self.scene.children.push(Child::of(plan))?,
            Directive::Acts(early) => self.scene.early.push(early)?,
            _ => return Err("no such directive")?,
        }
        Ok(())
    }
}

impl Play for Player {
    fn direct(&mut self, directive: Directive) -> Result<(), Fail> {
        match directive {
            Directive::Scene => self.begin()?,
            Directive::Leaves(kind, left) => self.leaves(kind, left)?,
            Directive::Asked => self.mode = Mode::Asked,
            Directive::Run => self.mode = Mode::Run,
            Directive::Stand(name) => self.stand(name)?,
            Directive::Stands(name) => self.mark(name)?,
            Directive::Raw(bytes) => self.raw(&bytes)?,
            Directive::Changed(change) => self.scene.open.changes.push(change)?,
            Directive::Call(words) => self.call(words)?,
            Directive::Ends(line) => self.play(&line)?,
            Directive::Serve => self.flush()?,
            Directive::Done(act) => self.act(act)?,
            Directive::Test(test) => self.test(&test)?,
            Directive::Each(trial, count, through) => self.each(trial, (count, through))?,
            planned => self.plan(planned)?,
        }
        Ok(())
    }

    fn ask(&mut self, line: &str) -> Result<(), Fail> {
        match self.mode {
            Mode::Run => {
                self.raw(line.as_bytes())?;
                self.raw(b"\n")
            }
            Mode::Asked => {
                self.scene.asked.extend_from_slice(line.as_bytes())?;
                Ok(self.scene.asked.push(b'\n')?)
            }
            Mode::Stand => Err("what stands has no lines")?,
        }
    }

    fn reply(&mut self, line: &str, at: u64) -> Result<(), Fail> {
        match self.mode {
            Mode::Run => Ok(self.scene.open.put_reply(line, at)?),
            Mode::Asked => Err("what is asked has no replies here")?,
            Mode::Stand => {
                let Some(mut stand) = self.scene.stands.pop() else {
                    return Err("nothing has a name")?;
                };
                stand.replies.push_str(line)?;
                stand.replies.push('\n')?;
                Ok(self.scene.stands.push(stand)?)
            }
        }
    }

    fn end(&mut self) -> Result<(), Fail> {
        self.flush()
    }
}

/// Plays a text: each call ends as it says, each line has its reply, and each file holds what it says. Where something is not so its line stands in `at`,
/// counted from 1.
pub fn play_text(alloc: Global, text: &str, at: &mut u64) -> Result<(), Fail> {
    let mut player = Player::new(alloc)?;
    let played = play_lines(alloc, text, at, &mut player);
    if let Some(wrong) = player.wrong {
        *at = wrong;
    }
    played
}

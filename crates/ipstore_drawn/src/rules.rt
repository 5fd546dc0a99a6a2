// Rules of merging that a caller has.
use crate::runs::Runs;
use ip_base::{Blob, Memory, Path};
use ip_merge::{Answer, Call, Counter, LineSet, Merged, Rules, Same, Seq, Three};
use std::alloc::Global;
use std::test::Fail;

fn path_of(alloc: Global, text: &str) -> Result<Path, Fail> {
    match Path::read(alloc, text.as_bytes()) {
        Ok(path) => Ok(path),
        Err(_) => Err("no path")?,
    }
}

// What the right side has.
fn right_of(alloc: Global, three: &Three) -> Result<Merged, Memory> {
    match &three.right {
        Some(right) => Ok(Merged::Keep(Some(Blob::copy_of(alloc, right.as_slice())?))),
        None => Ok(Merged::Keep(None)),
    }
}

impl Runs {
    /// A script is served by a caller's rules: counters at and under `a`, sets of lines at and under `a/a` and equal sides under `a/a/a`; a counter or else lines
    /// at and under `b`, and the right side under `b/b`.
    pub fn serve_by_caller(&mut self, text: &str, seed: u64) -> Result<(), Fail> {
        let alloc = self.alloc;
        let mut rules = Rules::new(alloc);
        rules.add(path_of(alloc, "a")?, Box::new(alloc, Counter)?)?;
        rules.add(path_of(alloc, "a/a")?, Box::new(alloc, LineSet)?)?;
        rules.add(path_of(alloc, "a/a/a")?, Box::new(alloc, Same)?)?;
        let number_or_lines = Seq {
            first: Counter,
            second: LineSet,
        };
        rules.add(path_of(alloc, "b")?, Box::new(alloc, number_or_lines)?)?;
        let right: Answer = Box::new(alloc, move |three: &Three| right_of(alloc, three))?;
        rules.add_call(path_of(alloc, "b/b")?, Call::new(right))?;
        self.serve(text, seed, &rules)
    }
}

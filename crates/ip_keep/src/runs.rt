// Runs that touch are one.
ghost use Rattle.std.specs.Prelude.{◌≡◌, reverse};
ghost use Rattle.ip_keep.specs.Runs.{FitRuns, GivesRun, left_of};

use ip_image::run::Run;

/// Runs that are still to be joined, the greatest first.
#[derive(Clone, Copy, Debug)]
pub struct Runs<'a> {
    left: &'a [Run],
}

impl<'a> Runs<'a> {
    /// Those of a list, which has the greatest first.
    pub fn of(left: &'a [Run]) -> Runs<'a>
        ensures { left_of result ≡ reverse left.now }
    {
        Runs { left }
    }

    /// The first maximal run of those that are left, or nothing where none is.
    pub fn take_run(&mut self) -> Option<Run>
        requires fit { FitRuns (left_of self.old) }
        ensures gives { GivesRun (left_of self.old) result (left_of self.new) }
        ensures fit { FitRuns (left_of self.new) }
    {
        let Some((first, rest)) = self.left.split_last() else {
            return None;
        };
        let mut run = *first;
        self.left = rest;
        while let Some((next, rest)) = self.left.split_last() {
            if run.at + run.length != next.at {
                break;
            }
            run.length += next.length;
            self.left = rest;
        }
        Some(run)
    }
}

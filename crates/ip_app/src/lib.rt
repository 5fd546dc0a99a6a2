//! The program's calls: what its words ask for, a script served line by line, and how a call ends.
#![tactic(auto)]

ghost use Rattle.std.specs.Prelude.{◌≡◌, ◌^◌};
ghost use Rattle.ip_base.specs.declared.limit.TheConstants.{CONTENTS_MAX, CONTENTS_MAX_VERSION_2, STEP_BYTES_MAX, NAME_MAX, AUTHOR_MAX, MESSAGE_MAX, STEPS_MAX, ENTRIES_MAX, LEAF_ENTRIES_MAX, PARENTS_MAX, BRANCHES_MAX, OFFSET_MAX, CHUNK_MIN, CHUNK_MAX};
ghost use Rattle.ip_app.specs.declared.lines.TheConstants.{LONGEST_LINE, MOST_TAKEN};

mod calls;
mod exchange;
mod lines;
mod load;
mod program;
mod rules;
mod serve;
mod statuses;
mod turn_log;
mod work;

pub use calls::{reopened, run};
pub use program::run_program;
pub use rules::{ProgramRules, program_rules_decide};
pub use statuses::{Bound, Status};
pub use turn_log::{Kept, Log, Silent, Turn};

/// A law, which does nothing when it is called: the numbers of the limits, by which the clauses that name them are read.
pub fn limits()
    // of what a source gives
    ensures line { LONGEST_LINE ≡ 4194304 }
    ensures source { MOST_TAKEN ≡ 2 ^ 62 }
    // of a repository
    ensures contents { CONTENTS_MAX ≡ 1048576 }
    ensures entries { ENTRIES_MAX ≡ 1048576 }
    ensures steps { STEPS_MAX ≡ 64 }
    ensures parents { PARENTS_MAX ≡ 16 }
    ensures branches { BRANCHES_MAX ≡ 4096 }
    ensures step { STEP_BYTES_MAX ≡ 255 }
    ensures name { NAME_MAX ≡ 255 }
    ensures author { AUTHOR_MAX ≡ 255 }
    ensures message { MESSAGE_MAX ≡ 4096 }
    // of the files; the first is that of bytes, of sequence numbers and of attempts
    ensures offset { OFFSET_MAX ≡ 2 ^ 62 }
    ensures least_chunk { CHUNK_MIN ≡ 2 ^ 12 }
    ensures greatest_chunk { CHUNK_MAX ≡ 2 ^ 30 }
    ensures leaf { LEAF_ENTRIES_MAX ≡ 32 }
    ensures read_contents { CONTENTS_MAX_VERSION_2 ≡ 16777216 }
{}

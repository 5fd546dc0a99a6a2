//! The functions by which callers merge values that both sides changed.
#![tactic(auto)]

ghost use Rattle.ip_spec.specs.Merge.{IsOneAnswer, same_means, counter_means, line_set_means};
ghost use Rattle.ip_merge.specs.Rules.{HasOneAnswer};

mod call;
mod counter;
mod decides;
mod line_set;
mod merger;
mod order;
mod rules;
mod same;
mod seq;
mod values;

pub use call::{Answer, Call, Three};
pub use counter::Counter;
pub use decides::Decides;
pub use ip_spec::merge::Merged;
pub use line_set::LineSet;
pub use merger::Merger;
pub use rules::{PathRule, Rule, Rules};
pub use same::Same;
pub use seq::Seq;

/// Equal sides, counters and sets of lines each mean one answer for three values.
pub fn one_answer()
    ensures same { IsOneAnswer same_means }
    ensures counter { IsOneAnswer counter_means }
    ensures line_set { IsOneAnswer line_set_means }
{}

/// Each of these means exactly one answer, so rules of nothing else are decisive.
pub fn exact_answer()
    ensures same { HasOneAnswer same_means }
    ensures counter { HasOneAnswer counter_means }
    ensures line_set { HasOneAnswer line_set_means }
{}

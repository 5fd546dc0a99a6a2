//! What a store holds, what stands against a command on it, and the durable step, which any command takes that changes it.
#![tactic(auto)]

ghost use Rattle.ip_held.specs.Staying.{KeepsLawful};

mod collection;
mod fault;
mod held;
mod layout;
mod met;
mod record;
mod refusal;
mod step;
mod work;

pub use collection::{Collection, Unswept};
pub use fault::StoreFault;
pub use held::Held;
pub use layout::layout_of;
pub use met::{met_by, nothing_met};
pub use record::spelled;
pub use step::{Entry, Step, name_branch};
pub use work::Work;

/// A work that a call was not given stays lawful behind it: where the records stay, commits are only added, and no fewer are given up.
pub fn lawful_works()
    ensures stay { KeepsLawful }
{}

//! Collections: one is begun, looked after and brought to its end, or cancelled; what nobody needs is swept away.
#![tactic(auto)]

mod cancelling;
mod checking;
mod finishing;
mod starting;
mod swapping;
mod sweeping;

pub use cancelling::{CancelFault, Cancelled, cancel};
pub use finishing::{Collected, FinishFault, Looked, Rejection, conclude};
pub use starting::{CollectFault, met_by_start, start_collect};

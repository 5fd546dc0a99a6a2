//! The core of a collection: records that refer to earlier ones, a horizon, and a collection that goes on beside the writer, over
//! every list of events.
#![tactic(auto)]

mod append;
mod laws;
mod phase;
mod protocol;
mod search;
mod sweep;

pub use ip_spec::event::{CoreRecord, CoreRecords, Event, Offsets};
pub use laws::{continued, events, steps};
pub use protocol::Core;

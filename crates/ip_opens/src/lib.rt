//! Making a store, and opening it: its slot, its tables and its space, from one walk over its records.
#![tactic(auto)]

mod making;
mod opening;
mod walk;

pub use making::{InitFault, init};
pub use opening::{OpenFault, open_at};

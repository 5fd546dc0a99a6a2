//! The test of records when a store is read: each, in the order of its offset, against what is remembered of those before it.
#![tactic(auto)]

mod audit;
mod kept;
mod measures;
mod names;
mod parents;

pub use audit::{Audit, AuditFault};
pub use ip_image::terms::Terms;
pub use names::Names;

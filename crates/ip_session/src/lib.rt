//! A session: one line, one reply.
#![tactic(auto)]

mod collecting;
mod durable;
mod replies;
mod session;
mod trees;

pub use session::{REPLY_ROOM, Session, SessionEnd};

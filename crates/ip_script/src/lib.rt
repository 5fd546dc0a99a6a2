//! A script's side of the store: where its bytes come from, which line is which command, and the texts of replies.
#![tactic(auto)]

mod date;
mod field;
mod line;
mod load;
mod reply;
mod source;
mod words;

pub use ip_spec::command::{Command, LineFault, Target};
pub use ip_spec::reply::Reply;
pub use line::{grammar, read_line};
pub use load::{LOAD_LINE_MAX, load_line};
pub use reply::{put_hex, put_number, reply_text};
pub use source::{Bytes, Source, SourceCounts, SourceFault};

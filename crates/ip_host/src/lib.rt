//! The store's outside in a real system: its folder, standard output, standard input, and the processes that are its
//! children. A real folder tells nothing of its content, so what is proved of it is that no call does harm, that each
//! fault is counted, that the folder is the one which was named, that a read says no more bytes than there is room for,
//! and what each file is called. Of a child it is which attempt is held, what was counted, the folder, the job and the
//! words that it is started with, and how its status is told. That the system keeps what is written, syncs what is
//! synced, and starts and ends what it is told to, is not proved.
#![tactic(auto)]

mod causes;
mod children;
mod files;
mod folder;
mod names;
mod plain;
mod starter;
mod stdin;

pub use causes::{Cause, Subject};
pub use children::Children;
pub use folder::Folder;
pub use names::file_name;
pub use stdin::Stdin;

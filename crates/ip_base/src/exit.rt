// How a child ends.

/// How a child ended.
#[derive(Clone, Copy, Debug, PartialEq, Eq)]
pub enum Exit {
    /// By itself, with this exit status.
    Code(i32),
    /// By a signal.
    Signal,
}

/// A child that has ended and was waited for, by the attempt that it was started for.
#[derive(Clone, Copy, Debug, PartialEq, Eq)]
pub struct Reaped {
    /// The number of the attempt to collect.
    pub attempt: u64,
    /// How it ended.
    pub exit: Exit,
}

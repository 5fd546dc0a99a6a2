//! Tests of a caller's own rules, and of a closure behind a box.
#![tactic(auto)]

#[cfg(test)]
mod tests;

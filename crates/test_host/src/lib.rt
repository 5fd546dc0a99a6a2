//! Tests of the folder, the input and the children of a real system, one of each. What the program makes of them is tried by scripts.
#![tactic(auto)]

#[cfg(test)]
mod tests;

//! Clients of the contracts of parts that show over a ground in memory that what the clauses ask for can be met: what they promise follows there.
#![tactic(auto)]

#[cfg(test)]
mod chunks;
#[cfg(test)]
mod grounds;
#[cfg(test)]
mod slots;

//! The tests of lists and of plans: what is told where something after a good line, word or edit is
//! bad. They are in a crate of their own, since a crate with tests is proved twice.
#![tactic(auto)]

#[cfg(test)]
mod tests;

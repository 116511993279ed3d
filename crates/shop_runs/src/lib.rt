//! Tests of whole runs over objects in memory. They stand in a crate of their own, so that no crate below is proved twice for them.
#![tactic(auto)]

#[cfg(test)]
mod tests;

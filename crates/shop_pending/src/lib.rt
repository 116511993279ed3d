//! A test of a shop that nobody asks to catch up, and of a copy that is older than the published one. It stands in a crate of its own, so that no crate below is proved twice for it, and beside `shop_runs`.
#![tactic(auto)]

#[cfg(test)]
mod tests;

//! Tests of the tables, and of values, ids and days by themselves. They stand in a crate of their own, so that neither `shop_defs` nor `shop_requests` is proved twice for them.
#![tactic(auto)]

#[cfg(test)]
mod tests;

//! What may cross from one thread to another.
use crate::answers::{Entry, Reply, Request};
use crate::state::ShopState;
use shop_outside::{Keeper, MemKeeper};
use shop_rows::Rows;

/// Values of the type may be handed to another thread, and lent to several.
fn crosses<T: Send + Sync>() {}

/// The rows, a shop whose keeper may cross, the keeper in memory, requests, replies and entries may be
/// handed to another thread, and lent to several.
pub fn law_of_threads<P: Keeper + Drop + Send + Sync>() {
    crosses::<Rows>();
    crosses::<ShopState<P>>();
    crosses::<ShopState<MemKeeper>>();
    crosses::<Request>();
    crosses::<Reply>();
    crosses::<Entry>();
}

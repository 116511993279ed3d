//! What may cross from one thread to another.
use shop_routes::Routes;

/// Values of the type may be handed to another thread, and lent to several.
fn crosses<T: Send + Sync>() {}

/// The paths of the interface may be handed to another thread, and lent to several.
pub fn law_of_threads() {
    crosses::<Routes>();
}

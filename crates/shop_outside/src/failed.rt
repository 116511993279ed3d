//! The one answer of a call that failed.

/// A call on an object that was handed in failed.
#[derive(Clone, Copy)]
pub struct Failed;

//! What stands in a page for a value.
ghost use Rattle.std.specs.Prelude.{◌≡◌, IfOk};
ghost use Rattle.std.specs.Arc.{arc_value};

use std::alloc::{AllocError, Global};
use std::sync::Arc;

/// What stands in a page for a value: a page that is copied takes another of the same value.
pub trait Leaf<V>: Drop {
    /// The value that it stands for.
    ghost leaf_value: { Self → V };

    /// The value.
    fn value(&self) -> &V
        ensures { result.now ≡ leaf_value self.now };

    /// Another of the same value. Want of memory is the only error.
    fn share(&self) -> Result<Self, AllocError>
        ensures { IfOk result (λ leaf. leaf_value leaf ≡ leaf_value self.now) };
}

/// A value that pages share.
impl<V: Drop> Leaf<V> for Arc<V, Global> {
    ghost leaf_value = { arc_value };

    fn value(&self) -> &V {
        self
    }

    fn share(&self) -> Result<Arc<V, Global>, AllocError> {
        Arc::try_clone(self)
    }
}

/// A small value that stands in the page itself, and is copied with it.
#[derive(Clone, Copy)]
pub struct Inline<V: Copy>(pub V);

impl<V: Copy> Leaf<V> for Inline<V> {
    ghost leaf_value = { λ leaf. leaf.0 };

    fn value(&self) -> &V {
        &self.0
    }

    fn share(&self) -> Result<Inline<V>, AllocError> {
        Ok(*self)
    }
}

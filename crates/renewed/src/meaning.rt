//! What keys mean over a source.
use shop_defs::{List, NoMemory};
use std::alloc::Global;

/// What becomes of the value at a key.
#[derive(Drop)]
pub enum Renewed<V> {
    /// It stays.
    Same,
    /// There is none from now on.
    Gone,
    /// It is this one.
    New(V),
}

/// What keys mean over a source, and what a change of the source touches.
///
/// `of` is the meaning: the value at a key, or none.
pub trait Meaning {
    ghost use Rattle.std.specs.Prelude.{◌≡◌, ◌⊎◌, ℕ, List, Option, None, false, IfOk};
    ghost use Rattle.std.specs.Option.{option_copied};
    ghost use Rattle.renewed.specs.Showing.{has_key};
    ghost use Rattle.renewed.specs.Renewing.{left};

    /// What keys have a meaning over.
    type Over;
    /// What is told of a change of it.
    type Change;
    /// What a change touches, as it is found once for all keys.
    type Touched: Drop;
    /// What stands at a key.
    type Value: Drop;

    /// What stands at a key over a source.
    ghost of: { Self.Over → ℕ → Option Self.Value };

    /// A source is one that keys have a meaning over.
    ghost IsFit: { Self.Over → Type 0 };

    /// The change leads from the one source to the other.
    ghost Leads: { Self.Over → Self.Change → Self.Over → Type 0 };

    /// This is what a change touches that leads from the one source to the other.
    ghost IsTouched: { Self.Over → Self.Over → Self.Touched → Type 0 };

    /// The keys that are touched.
    ghost keys_of: { Self.Touched → List ℕ };

    /// The value at a key. Want of memory is the only error, here and below.
    fn value(alloc: Global, over: &Self::Over, key: u128) -> Result<Option<Self::Value>, NoMemory>
        requires { IsFit over.now }
        ensures { IfOk result (λ value. value ≡ of over.now key) };

    /// Keys among which each one is that means something, in any order.
    fn keys(alloc: Global, over: &Self::Over) -> Result<List<u128>, NoMemory>
        requires { IsFit over.now }
        ensures { IfOk result (λ keys. (key : ℕ) → has_key keys key ≡ false → of over.now key ≡ None) };

    /// What the change touches. A key that isn't among the touched ones has the same meaning before
    /// and after.
    fn touched(
        alloc: Global,
        before: &Self::Over,
        after: &Self::Over,
        change: &Self::Change,
    ) -> Result<Self::Touched, NoMemory>
        requires was_fit { IsFit before.now }
        requires fit { IsFit after.now }
        requires leads { Leads before.now change.now after.now }
        ensures touched { IfOk result (IsTouched before.now after.now) }
        ensures outside { IfOk result (λ touched. (key : ℕ) → has_key (keys_of touched) key ≡ false → of before.now key ≡ of after.now key) };

    /// The keys that are touched, in any order, where a key may repeat.
    fn touched_keys(touched: &Self::Touched) -> &[u128]
        ensures { result.now ≡ keys_of touched.now };

    /// What becomes of the value at a key, which is the one before, or already the one after.
    fn renew(
        alloc: Global,
        before: &Self::Over,
        after: &Self::Over,
        touched: &Self::Touched,
        key: u128,
        old: Option<&Self::Value>,
    ) -> Result<Renewed<Self::Value>, NoMemory>
        requires was_fit { IsFit before.now }
        requires fit { IsFit after.now }
        requires touched { IsTouched before.now after.now touched.now }
        requires old { (option_copied old ≡ of before.now key) ⊎ (option_copied old ≡ of after.now key) }
        ensures { IfOk result (λ renewed. left renewed (option_copied old.entry) ≡ of after.now key) };
}

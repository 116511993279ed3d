//! Tables that show a meaning.
ghost use Rattle.std.specs.Prelude.{◌≡◌, ◌⊎◌, ℕ, [], ◌∷◌, IfOk, OnOk};
ghost use Rattle.std.specs.Arc.{arc_value};
ghost use Rattle.std.specs.Option.{option_copied, option_map};
ghost use Rattle.paged.specs.Paged.{all_pairs};
ghost use Rattle.renewed.specs.Renewing.{left};
ghost use Rattle.renewed.specs.Showing.{Shows, InTableOrder, value_at, refreshed};

use crate::meaning::{Meaning, Renewed};
use paged::Paged;
use shop_defs::NoMemory;
use std::alloc::Global;
use std::marker::Model;
use std::sync::Arc;

/// Keys in their order, each with the value that stands there.
///
/// They stand in pages: a look-up costs the logarithm of how many there are, a change makes anew the
/// page that it touches, and copies share the others.
#[derive(Drop)]
pub struct Table<V: Drop> {
    pages: Paged<u128, V>,
}

impl<V: Drop> Model for Table<V> {
    ghost use Rattle.std.specs.Prelude.{ℕ, List};
    ghost use Rattle.paged.specs.Paged.{all_pairs};
    ghost use Rattle.renewed.specs.Showing.{InTableOrder};

    ghost Value = { List (ℕ × V) };

    ghost view = { λ t. all_pairs t.pages };

    ghost invariant = { λ t. InTableOrder (all_pairs t.pages) };
}

impl<V: Drop> Table<V> {
    /// The table that shows the meaning over the source. Want of memory is the only error.
    pub fn build<M: Meaning<Value = V>>(alloc: Global, over: &M::Over) -> Result<Table<V>, NoMemory>
        requires { M.IsFit over.now }
        ensures { IfOk result (Shows (M.of over.now)) }
    {
        let keys = M::keys(alloc, over)?;
        let mut pages = Paged::empty(alloc);
        refresh::<V, M>(alloc, &mut pages, over, keys.as_slice())?;
        Ok(Table { pages })
    }

    /// Keeps the table in step with a change of the source. Want of memory is the only error: the
    /// table is only fit to be dropped then.
    pub fn apply<M: Meaning<Value = V>>(
        &mut self,
        alloc: Global,
        before: &M::Over,
        after: &M::Over,
        change: &M::Change,
    ) -> Result<(), NoMemory>
        requires shows { Shows (M.of before.now) self.old }
        requires was_fit { M.IsFit before.now }
        requires fit { M.IsFit after.now }
        requires leads { M.Leads before.now change.now after.now }
        ensures { OnOk result (Shows (M.of after.now) self.new) }
    {
        let touched = M::touched(alloc, before, after, change)?;
        renew_all::<V, M>(alloc, &mut self.pages, before, after, &touched)
    }

    /// The value at the key: `None` exactly where there is none. It takes no memory.
    pub fn get(&self, key: u128) -> Option<&V>
        ensures { option_copied result ≡ value_at self.now key }
    {
        self.pages.get(&key)
    }

    /// The same table, whose pages are shared. Want of memory is the only error.
    pub fn copy(&self) -> Result<Table<V>, NoMemory>
        ensures { IfOk result (λ copy. copy ≡ self.now) }
    {
        let pages = self.pages.share()?;
        Ok(Table { pages })
    }
}

/// Puts at each of the keys what it means, or takes out what stood there.
fn refresh<V: Drop, M: Meaning<Value = V>>(
    alloc: Global,
    pages: &mut Paged<u128, V>,
    over: &M::Over,
    keys: &[u128],
) -> Result<(), NoMemory>
    requires fit { M.IsFit over.now }
    requires order { InTableOrder (all_pairs pages.old) }
    ensures order { InTableOrder (all_pairs pages.new) }
    ensures values { OnOk result ((at : ℕ) → value_at (all_pairs pages.new) at ≡ refreshed (M.of over.now) (value_at (all_pairs pages.old)) keys.now at) }
{
    for key in keys {
        refresh_one::<V, M>(alloc, pages, over, *key)?;
    }
    Ok(())
}

fn refresh_one<V: Drop, M: Meaning<Value = V>>(
    alloc: Global,
    pages: &mut Paged<u128, V>,
    over: &M::Over,
    key: u128,
) -> Result<(), NoMemory>
    requires fit { M.IsFit over.now }
    requires order { InTableOrder (all_pairs pages.old) }
    ensures order { InTableOrder (all_pairs pages.new) }
    ensures values { OnOk result ((at : ℕ) → value_at (all_pairs pages.new) at ≡ refreshed (M.of over.now) (value_at (all_pairs pages.old)) (key ∷ []) at) }
{
    let value = M::value(alloc, over, key)?;
    set(alloc, pages, key, value)
}

/// Renews the value at each touched key.
fn renew_all<V: Drop, M: Meaning<Value = V>>(
    alloc: Global,
    pages: &mut Paged<u128, V>,
    before: &M::Over,
    after: &M::Over,
    touched: &M::Touched,
) -> Result<(), NoMemory>
    requires was_fit { M.IsFit before.now }
    requires fit { M.IsFit after.now }
    requires touched { M.IsTouched before.now after.now touched.now }
    requires shows { Shows (M.of before.now) (all_pairs pages.old) }
    ensures order { InTableOrder (all_pairs pages.new) }
    ensures values { OnOk result ((at : ℕ) → value_at (all_pairs pages.new) at ≡ refreshed (M.of after.now) (value_at (all_pairs pages.old)) (M.keys_of touched.now) at) }
{
    for key in M::touched_keys(touched) {
        renew_one::<V, M>(alloc, pages, before, after, touched, *key)?;
    }
    Ok(())
}

fn renew_one<V: Drop, M: Meaning<Value = V>>(
    alloc: Global,
    pages: &mut Paged<u128, V>,
    before: &M::Over,
    after: &M::Over,
    touched: &M::Touched,
    key: u128,
) -> Result<(), NoMemory>
    requires was_fit { M.IsFit before.now }
    requires fit { M.IsFit after.now }
    requires touched { M.IsTouched before.now after.now touched.now }
    requires order { InTableOrder (all_pairs pages.old) }
    requires old { (value_at (all_pairs pages.old) key ≡ M.of before.now key) ⊎ (value_at (all_pairs pages.old) key ≡ M.of after.now key) }
    ensures order { InTableOrder (all_pairs pages.new) }
    ensures values { OnOk result ((at : ℕ) → value_at (all_pairs pages.new) at ≡ refreshed (M.of after.now) (value_at (all_pairs pages.old)) (key ∷ []) at) }
{
    let renewed = M::renew(alloc, before, after, touched, key, pages.get(&key))?;
    put_renewed(alloc, pages, key, renewed)
}

/// Puts what becomes of the value at the key.
fn put_renewed<V: Drop>(
    alloc: Global,
    pages: &mut Paged<u128, V>,
    key: u128,
    renewed: Renewed<V>,
) -> Result<(), NoMemory>
    requires order { InTableOrder (all_pairs pages.old) }
    ensures order { InTableOrder (all_pairs pages.new) }
    ensures values { OnOk result ((at : ℕ) → value_at (all_pairs pages.new) at ≡ refreshed (λ _. left renewed (value_at (all_pairs pages.old) key)) (value_at (all_pairs pages.old)) (key ∷ []) at) }
{
    match renewed {
        Renewed::Same => Ok(()),
        Renewed::Gone => set(alloc, pages, key, None),
        Renewed::New(value) => set(alloc, pages, key, Some(value)),
    }
}

/// Puts the value at the key, or takes out what stood there.
fn set<V: Drop>(
    alloc: Global,
    pages: &mut Paged<u128, V>,
    key: u128,
    value: Option<V>,
) -> Result<(), NoMemory>
    requires order { InTableOrder (all_pairs pages.old) }
    ensures order { InTableOrder (all_pairs pages.new) }
    ensures values { OnOk result ((at : ℕ) → value_at (all_pairs pages.new) at ≡ refreshed (λ _. value) (value_at (all_pairs pages.old)) (key ∷ []) at) }
{
    let leaf = shared(alloc, value)?;
    pages.change(key, leaf)?;
    Ok(())
}

/// The value, as pages share it.
fn shared<V: Drop>(alloc: Global, value: Option<V>) -> Result<Option<Arc<V, Global>>, NoMemory>
    ensures { IfOk result (λ leaf. option_map arc_value leaf ≡ value) }
{
    match value {
        Some(value) => Ok(Some(Arc::new(alloc, value)?)),
        None => Ok(None),
    }
}

//! The index of listings.
ghost use Rattle.std.specs.Prelude.{◌≡◌, ℕ, List as ListOf, Option as OptionOf, Some, OnOk, OnErr, IfOk, IsSome};
ghost use Rattle.shop_defs.specs.declared.row.Row.{Row};
ghost use Rattle.shop_defs.specs.Rows.{change_rows};
ghost use Rattle.shop_rows.specs.Changing.{StandUnderTheirKeys, HasAscendingKeys};
ghost use Rattle.renewed.specs.Renewing.{left};
ghost use Rattle.renewed.specs.Showing.{value_at};
ghost use Rattle.shop_meanings.specs.Live.{AreOrderly};
ghost use Rattle.product_meanings.specs.Listings.{listing_price as the_price, listed as the_list, listing as the_listing};
ghost use Rattle.idx_listing.specs.Relisting.{IsOutside, IsRenewed};
ghost use Rattle.idx_listing.specs.Shown.{ShowsListings};

use crate::categories::{Affected, find_affected};
use crate::lists::{category_ids, edited_list, find_listed, is_missing};
use crate::offered::find_price;
use crate::page::page_with;
use crate::touched::touched_ids;
use id_sets::Ids;
use product_meanings::{ListingPage, ListingPrice};
use product_rows::product_ids;
use renewed::{Meaning, Renewed, Table};
use shop_defs::{Delta, List, NoMemory};
use shop_rows::Rows;
use std::alloc::Global;
use std::marker::Model;

/// The prices of products, as what a table means.
struct Prices;

impl Meaning for Prices {
    type Over = Rows;

    type Change = Delta;

    type Touched = List<u128>;

    type Value = ListingPrice;

    ghost of = { λ rows id. the_price rows.list id };

    ghost IsFit = { λ rows. AreOrderly rows.list };

    ghost Leads = { λ before delta after. (after.list ≡ change_rows before.list delta.changes) × StandUnderTheirKeys delta.changes × HasAscendingKeys delta.changes };

    ghost IsTouched = { λ _ _ _. Unit {0} };

    ghost keys_of = { λ touched. touched };

    fn value(alloc: Global, over: &Rows, key: u128) -> Result<Option<ListingPrice>, NoMemory> {
        find_price(alloc, over, key)
    }

    fn keys(alloc: Global, over: &Rows) -> Result<List<u128>, NoMemory> {
        let ids = product_ids(alloc, over)?;
        let list = Vec::from_slice(alloc, ids.as_slice())?;
        Ok(List::from_vec(list))
    }

    fn touched(
        alloc: Global,
        before: &Rows,
        after: &Rows,
        change: &Delta,
    ) -> Result<List<u128>, NoMemory> {
        touched_ids(alloc, before, after, change)
    }

    fn touched_keys(touched: &List<u128>) -> &[u128] {
        touched.as_slice()
    }

    fn renew(
        alloc: Global,
        _: &Rows,
        after: &Rows,
        _: &List<u128>,
        key: u128,
        _: Option<&ListingPrice>,
    ) -> Result<Renewed<ListingPrice>, NoMemory> {
        match find_price(alloc, after, key)? {
            Some(price) => Ok(Renewed::New(price)),
            None => Ok(Renewed::Gone),
        }
    }
}

/// What categories list, as what a table means.
struct Lists;

impl Meaning for Lists {
    type Over = Rows;

    type Change = Delta;

    type Touched = Affected;

    type Value = Ids;

    ghost of = { λ rows id. the_list rows.list id };

    ghost IsFit = { λ rows. AreOrderly rows.list };

    ghost Leads = { λ before delta after. (after.list ≡ change_rows before.list delta.changes) × StandUnderTheirKeys delta.changes × HasAscendingKeys delta.changes };

    ghost IsTouched = { λ before after touched. IsOutside before.list after.list touched.products touched.categories };

    ghost keys_of = { λ touched. touched.categories };

    fn value(alloc: Global, over: &Rows, key: u128) -> Result<Option<Ids>, NoMemory> {
        find_listed(alloc, over, key)
    }

    fn keys(alloc: Global, over: &Rows) -> Result<List<u128>, NoMemory> {
        let ids = category_ids(alloc, over)?;
        Ok(List::from_vec(ids))
    }

    fn touched(
        alloc: Global,
        before: &Rows,
        after: &Rows,
        change: &Delta,
    ) -> Result<Affected, NoMemory> {
        find_affected(alloc, before, after, change)
    }

    fn touched_keys(touched: &Affected) -> &[u128] {
        touched.categories.as_slice()
    }

    fn renew(
        alloc: Global,
        _: &Rows,
        after: &Rows,
        touched: &Affected,
        key: u128,
        old: Option<&Ids>,
    ) -> Result<Renewed<Ids>, NoMemory> {
        match old {
            Some(old) if !is_missing(after, key) => {
                renew_list(alloc, after, key, old, &touched.products)
            }
            _ => find_anew(alloc, after, key),
        }
    }
}

/// Looks at the products alone.
fn renew_list(
    alloc: Global,
    rows: &Rows,
    category: u128,
    old: &Ids,
    products: &Ids,
) -> Result<Renewed<Ids>, NoMemory>
    requires { AreOrderly rows.now.list }
    ensures { IfOk result (λ renewed. IsRenewed rows.now.list category old.now products.now (left renewed (Some old.now))) }
{
    match edited_list(alloc, rows, category, old, products)? {
        Some(ids) => Ok(Renewed::New(ids)),
        None => Ok(Renewed::Same),
    }
}

/// Finds all that the category lists.
fn find_anew(alloc: Global, rows: &Rows, category: u128) -> Result<Renewed<Ids>, NoMemory>
    requires { AreOrderly rows.now.list }
    ensures { IfOk result (λ renewed. (old : OptionOf (ListOf ℕ)) → left renewed old ≡ the_list rows.now.list category) }
{
    match find_listed(alloc, rows, category)? {
        Some(ids) => Ok(Renewed::New(ids)),
        None => Ok(Renewed::Gone),
    }
}

/// At which price each live product is listed, and which products each live category lists.
///
/// Contracts see both as lists of ids, ascending: each product's with its price, and each category's
/// with the ids of the products that it lists.
#[derive(Drop)]
pub struct ListingIndex {
    prices: Table<ListingPrice>,
    lists: Table<Ids>,
}

impl Model for ListingIndex {
    ghost use Rattle.idx_listing.specs.Shown.{Listings};

    ghost Value = { Listings };

    ghost view = { λ i. record { prices = i.prices; lists = i.lists } };
}

impl ListingIndex {
    /// The index of the rows. Want of memory is the only error, here and below.
    pub fn build(alloc: Global, rows: &Rows) -> Result<ListingIndex, NoMemory>
        requires { AreOrderly rows.now.list }
        ensures { IfOk result (ShowsListings rows.now.list) }
    {
        let prices = Table::build::<Prices>(alloc, rows)?;
        let lists = Table::build::<Lists>(alloc, rows)?;
        Ok(ListingIndex { prices, lists })
    }

    /// What the delta may affect of the lists, which leads from the rows before to those after: outside
    /// of these products each belongs to the same lists before and after, and outside of these
    /// categories each lists the same products.
    pub fn affected(
        alloc: Global,
        before: &Rows,
        after: &Rows,
        delta: &Delta,
    ) -> Result<Affected, NoMemory>
        requires was_orderly { AreOrderly before.now.list }
        requires orderly { AreOrderly after.now.list }
        requires leads { after.now.list ≡ change_rows before.now.list delta.now.changes }
        requires keys { StandUnderTheirKeys delta.now.changes }
        requires once { HasAscendingKeys delta.now.changes }
        ensures { IfOk result (λ affected. IsOutside before.now.list after.now.list affected.products affected.categories) }
    {
        find_affected(alloc, before, after, delta)
    }

    /// Keeps the index in step with a delta that leads from the rows before to those after. After want
    /// of memory the index is only fit to be dropped.
    pub fn apply(
        &mut self,
        alloc: Global,
        before: &Rows,
        after: &Rows,
        delta: &Delta,
    ) -> Result<(), NoMemory>
        requires shows { ShowsListings before.now.list self.old }
        requires was_orderly { AreOrderly before.now.list }
        requires orderly { AreOrderly after.now.list }
        requires leads { after.now.list ≡ change_rows before.now.list delta.now.changes }
        requires keys { StandUnderTheirKeys delta.now.changes }
        requires once { HasAscendingKeys delta.now.changes }
        ensures { OnOk result (ShowsListings after.now.list self.new) }
    {
        self.prices.apply::<Prices>(alloc, before, after, delta)?;
        self.lists.apply::<Lists>(alloc, before, after, delta)
    }

    /// At which price the product is listed: `None` exactly where there is no such live product. It
    /// takes no memory.
    pub fn listing_price(&self, product: u128) -> Option<ListingPrice>
        ensures { result ≡ value_at self.now.prices product }
    {
        self.prices.get(product).copied()
    }

    /// The page of that number, counted from 1, of what the category lists: `None` exactly where there
    /// is no such live category. A page past the last one has no products, and page 0 is the first. It
    /// wants memory only where there is a page.
    pub fn listing(
        &self,
        alloc: Global,
        category: u128,
        page: u32,
    ) -> Result<Option<ListingPage>, NoMemory>
        ensures shown { IfOk result (λ found. (rows : ListOf Row) → AreOrderly rows → ShowsListings rows self.now → found ≡ the_listing rows category page) }
        ensures wanted { OnErr result ((rows : ListOf Row) → AreOrderly rows → ShowsListings rows self.now → IsSome (the_listing rows category page)) }
    {
        match self.lists.get(category) {
            Some(ids) => {
                let shown = page_with(alloc, &self.prices, ids.as_slice(), page)?;
                Ok(Some(shown))
            }
            None => Ok(None),
        }
    }

    /// The same index, whose pages are shared.
    pub fn copy(&self) -> Result<ListingIndex, NoMemory>
        ensures { IfOk result (λ copy. copy ≡ self.now) }
    {
        let prices = self.prices.copy()?;
        let lists = self.lists.copy()?;
        Ok(ListingIndex { prices, lists })
    }
}

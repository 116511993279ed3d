//! The tables of a copy.
ghost use Rattle.std.specs.Prelude.{◌≡◌, List, IfOk};
ghost use Rattle.shop_defs.specs.declared.row.Row.{Row};
ghost use Rattle.shop_requests.specs.declared.query.Query.TheVariants as Q;
ghost use Rattle.shop_defs.specs.Rows.{change_rows};
ghost use Rattle.shop_rows.specs.Changing.{StandUnderTheirKeys, HasAscendingKeys};
ghost use Rattle.shop_check.specs.Soundness.{AreSound};
ghost use Rattle.shop_defs.specs.declared.broken.Broken.TheVariants.{NoSuchRow};
ghost use Rattle.shop_meanings.specs.Live.{live_key};
ghost use Rattle.idx_copy.specs.declared.answer.AskFault.TheVariants as asking;
ghost use Rattle.idx_copy.specs.Answers.{AreTablesOf, Answers};

use crate::answer::{Answer, AskFault};
use idx_category::PathIndex;
use idx_listing::ListingIndex;
use idx_stream::StreamIndex;
use shop_defs::{Broken, Delta, Entity, Key, NoMemory};
use shop_requests::Query;
use shop_rows::Rows;
use std::alloc::Global;

/// The tables, without any rows.
#[derive(Drop)]
pub struct Tables {
    /// Where categories stand.
    pub paths: PathIndex,
    /// Which products are members of streams.
    pub streams: StreamIndex,
    /// At which prices products are listed, and which products categories list.
    pub listings: ListingIndex,
}

impl Tables {
    /// The direct tables of the rows. Want of memory is the only error.
    pub(crate) fn build(alloc: Global, rows: &Rows) -> Result<Tables, NoMemory>
        requires { AreSound rows.now.list }
        ensures { IfOk result (AreTablesOf rows.now.list) }
    {
        let paths = PathIndex::build(alloc, rows)?;
        let streams = StreamIndex::build(alloc, rows)?;
        let listings = ListingIndex::build(alloc, rows)?;
        Ok(Tables {
            paths,
            streams,
            listings,
        })
    }

    /// The direct tables of the rows after a delta, of those before it, which stay. Want of memory is
    /// the only error.
    pub(crate) fn after(
        &self,
        alloc: Global,
        before: &Rows,
        after: &Rows,
        delta: &Delta,
    ) -> Result<Tables, NoMemory>
        requires direct { AreTablesOf before.now.list self.now }
        requires was_sound { AreSound before.now.list }
        requires sound { AreSound after.now.list }
        requires leads { after.now.list ≡ change_rows before.now.list delta.now.changes }
        requires keys { StandUnderTheirKeys delta.now.changes }
        requires once { HasAscendingKeys delta.now.changes }
        ensures { IfOk result (AreTablesOf after.now.list) }
    {
        let mut paths = self.paths.copy()?;
        paths.apply(alloc, before, after, delta)?;
        let mut streams = self.streams.copy()?;
        streams.apply(alloc, before, after, delta)?;
        let mut listings = self.listings.copy()?;
        listings.apply(alloc, before, after, delta)?;
        Ok(Tables {
            paths,
            streams,
            listings,
        })
    }

    /// What the question is answered over the rows whose direct tables these are. It takes memory for a
    /// page of a listing alone.
    ///
    /// # Errors
    ///
    /// `Refused` with `NoSuchRow` comes exactly where there is no such live category, stream or product.
    /// `NoMemory` comes for a page of a listing alone.
    pub fn ask<'a>(&'a self, alloc: Global, query: &Query) -> Result<Answer<'a>, AskFault>
        ensures { (rows : List Row) → AreTablesOf rows self.entry.now → Answers rows query.now result }
    {
        match query {
            Query::CategoryTree { category } => self.tree(*category),
            Query::StreamMembers { stream } => self.members(*stream),
            Query::ListingPrice { product } => self.price(*product),
            Query::Listing { category, page } => self.page(alloc, *category, *page),
        }
    }

    /// Where the category stands.
    fn tree<'a>(&'a self, category: u128) -> Result<Answer<'a>, AskFault>
        ensures { (rows : List Row) → AreTablesOf rows self.entry.now → Answers rows (Q.CategoryTree category) result }
    {
        match self.paths.standing(category) {
            Some(standing) => Ok(Answer::CategoryTree {
                path: standing.path.as_slice(),
                level: standing.level,
                children: standing.children,
            }),
            None => Err(missing(Entity::Category, category)),
        }
    }

    /// Which products are members of the stream.
    fn members<'a>(&'a self, stream: u128) -> Result<Answer<'a>, AskFault>
        ensures { (rows : List Row) → AreTablesOf rows self.entry.now → Answers rows (Q.StreamMembers stream) result }
    {
        match self.streams.members(stream) {
            Some(members) => Ok(Answer::StreamMembers { members }),
            None => Err(missing(Entity::Stream, stream)),
        }
    }

    /// At which price the product is listed.
    fn price<'a>(&'a self, product: u128) -> Result<Answer<'a>, AskFault>
        ensures { (rows : List Row) → AreTablesOf rows self.entry.now → Answers rows (Q.ListingPrice product) result }
    {
        match self.listings.listing_price(product) {
            Some(price) => Ok(Answer::ListingPrice(price)),
            None => Err(missing(Entity::Product, product)),
        }
    }

    /// A page of what the category lists.
    fn page<'a>(&'a self, alloc: Global, category: u128, page: u32) -> Result<Answer<'a>, AskFault>
        ensures { (rows : List Row) → AreTablesOf rows self.entry.now → Answers rows (Q.Listing category page) result }
    {
        match self.listings.listing(alloc, category, page)? {
            Some(page) => Ok(Answer::Listing(page)),
            None => Err(missing(Entity::Category, category)),
        }
    }
}

/// There is no such live row.
fn missing(entity: Entity, id: u128) -> AskFault
    ensures { result ≡ asking.Refused (NoSuchRow (live_key entity id)) }
{
    AskFault::Refused(Broken::NoSuchRow {
        key: Key {
            entity,
            version: 0,
            id,
            second: 0,
        },
    })
}

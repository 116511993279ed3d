//! Places of rows, in order.
ghost use Rattle.std.specs.Prelude.{◌≡◌, [], IfOk, OnOk};
ghost use Rattle.shop_write.specs.Places as spec;
ghost use Rattle.keyed.specs.Keyed.{put};

use ordered::{Entry, Ordered};
use shop_defs::{Entity, Key, NoMemory, Row};
use std::alloc::Global;
use std::collections::BTreeSet;
use std::marker::Model;

/// Where a row stands, whatever its version. Places are ordered by the number of the entity, by id
/// and by second part.
#[derive(Drop, Clone, Copy, PartialEq, Eq, PartialOrd, Ord)]
pub(crate) struct Place {
    pub(crate) entity: Entity,
    pub(crate) id: u128,
    pub(crate) second: u128,
}

impl Place {
    /// The place of a key.
    pub(crate) fn of(key: &Key) -> Place
        ensures { result ≡ spec.place_of key.now }
    {
        Place {
            entity: key.entity,
            id: key.id,
            second: key.second,
        }
    }

    /// The key at the place that has that version.
    pub(crate) fn key(self, version: u128) -> Key
        ensures { result ≡ spec.key_at version self }
    {
        Key {
            entity: self.entity,
            version,
            id: self.id,
            second: self.second,
        }
    }
}

impl Entry for Place {
    type Key = Place;

    ghost key_of = { λ place. place };

    fn key(&self) -> Place {
        *self
    }
}

/// Places in order, each once. To look for one costs the logarithm of their number.
#[derive(Drop)]
pub(crate) struct Places {
    places: Ordered<Place>,
}

impl Model for Places {
    ghost use Rattle.std.specs.Prelude.{List};
    ghost use Rattle.shop_write.specs.declared.place.Place.{Place};
    ghost use Rattle.shop_write.specs.Places.{Rise};

    ghost Value = { List Place };

    ghost view = { λ r. r.places.list };

    ghost invariant = { λ r. Rise r.places.list };
}

impl Places {
    /// Whether the row stands at one of the places.
    pub(crate) fn has(&self, row: &Row) -> bool
        ensures { result ≡ spec.stands_among self.now row.now }
    {
        self.places.get(&Place::of(&row.key)).is_some()
    }

    /// Whether one of the places is of the entity and has that id.
    pub(crate) fn has_id(&self, entity: Entity, id: u128) -> bool
        ensures { result ≡ spec.has_id self.now entity id }
    {
        self.places
            .as_slice()
            .binary_search_by_key(
                &(entity.number(), id),
                |place| (place.entity.number(), place.id),
            )
            .is_ok()
    }

    /// The places in order.
    pub(crate) fn as_slice(&self) -> &[Place]
        ensures places { result.now ≡ self.now }
        ensures rise { spec.Rise self.now }
    {
        self.places.as_slice()
    }
}

/// Places that are found in any order, each once. To put one, and to look for one, costs the logarithm
/// of their number.
#[derive(Drop)]
pub(crate) struct Gathered {
    places: BTreeSet<Place>,
}

impl Model for Gathered {
    ghost use Rattle.std.specs.Prelude.{List};
    ghost use Rattle.shop_write.specs.declared.place.Place.{Place};
    ghost use Rattle.shop_write.specs.Places.{Rise};

    ghost Value = { List Place };

    ghost view = { λ r. r.places.keys };

    ghost invariant = { λ r. Rise r.places.keys };
}

impl Gathered {
    /// No places. It takes no memory.
    pub(crate) fn new(alloc: Global) -> Gathered
        ensures { result ≡ [] }
    {
        Gathered {
            places: BTreeSet::new(alloc),
        }
    }

    /// Puts the place among the others, if it isn't there yet.
    pub(crate) fn put(&mut self, place: Place) -> Result<(), NoMemory>
        ensures { OnOk result (self.new ≡ put spec.order spec.itself self.old place) }
    {
        match self.places.replace(place) {
            Ok(_) => Ok(()),
            Err(_) => Err(NoMemory),
        }
    }

    /// Puts the row's place among the others, and tells whether it wasn't there yet: one search says
    /// both.
    pub(crate) fn add(&mut self, row: &Row) -> Result<bool, NoMemory>
        ensures { IfOk result (λ fresh. spec.IsAdded row.now self.old self.new fresh) }
    {
        match self.places.insert(Place::of(&row.key)) {
            Ok(fresh) => Ok(fresh),
            Err(_) => Err(NoMemory),
        }
    }

    /// The places in order.
    pub(crate) fn into_places(self, alloc: Global) -> Result<Places, NoMemory>
        ensures { IfOk result (λ places. places ≡ self) }
    {
        let places = listed(alloc, &self.places)?;
        Ok(Places {
            places: Ordered::from_ascending(places),
        })
    }
}

fn listed(alloc: Global, places: &BTreeSet<Place>) -> Result<Vec<Place>, NoMemory>
    ensures { IfOk result (λ list. list.items ≡ places.now.keys) }
{
    let places = places.iter().copied();
    Ok(places.collect(alloc)?)
}

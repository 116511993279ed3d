//! Places in the order of keys and of mentions that look-ups need, and what stands there.
ghost use Rattle.std.specs.Prelude.{◌≡◌, filter, map};
ghost use Rattle.std.specs.Ordering.{is_eq};
ghost use Rattle.keyed.specs.Keyed.{Ascends};
ghost use Rattle.paged.specs.Pairs.{key_of, value_of};
ghost use Rattle.shop_rows.specs.Mentions.{itself};
ghost use Rattle.shop_rows.specs.Paging.{rows_in, mentions_in, AreFound};
ghost use Rattle.shop_rows.specs.Searches as spec;
ghost use Rattle.shop_rows.specs.Topics.{mention_cmp};

use crate::found::{Found, Place};
use crate::pages::{Mentions, Pages};
use crate::topic::{Mention, Topic};
use paged::Inline;
use shop_defs::{Entity, Key, Row};
use std::alloc::Global;
use std::cmp::Ordering;
use std::sync::Arc;

/// The mentions at a place.
pub(crate) type MentionsAt<'a, P> = Found<'a, Mention, (), Inline<()>, P>;

/// The rows at a place.
pub(crate) type RowsAt<'a, P> = Found<'a, Key, Row, Arc<Row, Global>, P>;

/// The place of the rows of an entity and a version.
#[derive(Drop)]
pub(crate) struct EntityOf {
    entity: Entity,
    version: u128,
}

impl Place<Key> for EntityOf {
    ghost order = { λ place key. spec.from_entity_of place.entity place.version key };

    fn order(&self, key: &Key) -> Ordering {
        key.entity
            .cmp(&self.entity)
            .then(key.version.cmp(&self.version))
    }
}

/// The place of the live rows of an entity with an id.
#[derive(Drop)]
pub(crate) struct LiveId {
    entity: Entity,
    id: u128,
}

impl Place<Key> for LiveId {
    ghost order = { λ place key. spec.from_live_id place.entity place.id key };

    fn order(&self, key: &Key) -> Ordering {
        key.entity
            .cmp(&self.entity)
            .then(key.version.cmp(&0).then(key.id.cmp(&self.id)))
    }
}

/// The place of a topic's mentions.
impl Place<Mention> for Topic {
    ghost order = { spec.from_topic };

    fn order(&self, mention: &Mention) -> Ordering {
        mention.topic.cmp(self)
    }
}

/// The place of a topic's mentions by the rows of an entity.
#[derive(Drop)]
pub(crate) struct TopicOf {
    topic: Topic,
    entity: Entity,
}

impl Place<Mention> for TopicOf {
    ghost order = { λ place. spec.from_topic_of place.topic place.entity };

    fn order(&self, mention: &Mention) -> Ordering {
        mention
            .topic
            .cmp(&self.topic)
            .then(mention.key.entity.cmp(&self.entity))
    }
}

/// The rows of the entity and the version.
pub(crate) fn rows_of(pages: &Pages, entity: Entity, version: u128) -> RowsAt<'_, EntityOf>
    requires { AreFound pages.now.rows pages.now.mentions pages.now.counts }
    ensures { map value_of result ≡ filter (λ row. is_eq (spec.from_entity_of entity version row.key)) (rows_in pages.now.rows) }
{
    let low = Key {
        entity,
        version,
        id: 0,
        second: 0,
    };
    Found::at(EntityOf { entity, version }, pages.rows.runs_from(&low))
}

/// The live rows of the entity with the id.
pub(crate) fn live_rows_of(pages: &Pages, entity: Entity, id: u128) -> RowsAt<'_, LiveId>
    requires { AreFound pages.now.rows pages.now.mentions pages.now.counts }
    ensures { map value_of result ≡ filter (λ row. is_eq (spec.from_live_id entity id row.key)) (rows_in pages.now.rows) }
{
    let low = Key {
        entity,
        version: 0,
        id,
        second: 0,
    };
    Found::at(LiveId { entity, id }, pages.rows.runs_from(&low))
}

/// The mentions of the topic.
pub(crate) fn mentions_at(mentions: &Mentions, topic: Topic) -> MentionsAt<'_, Topic>
    requires { Ascends mention_cmp itself (mentions_in mentions.now) }
    ensures { map key_of result ≡ filter (λ mention. is_eq (spec.from_topic topic mention)) (mentions_in mentions.now) }
{
    let low = lowest(topic, Entity::Language);
    Found::at(topic, mentions.runs_from(&low))
}

/// The mentions of the topic by the rows of the entity.
pub(crate) fn mentions_at_of(
    mentions: &Mentions,
    topic: Topic,
    entity: Entity,
) -> MentionsAt<'_, TopicOf>
    requires { Ascends mention_cmp itself (mentions_in mentions.now) }
    ensures { map key_of result ≡ filter (λ mention. is_eq (spec.from_topic_of topic entity mention)) (mentions_in mentions.now) }
{
    let low = lowest(topic, entity);
    Found::at(TopicOf { topic, entity }, mentions.runs_from(&low))
}

/// The lowest mention of the topic by a row of the entity that may be.
fn lowest(topic: Topic, entity: Entity) -> Mention
    ensures { result ≡ spec.lowest topic entity }
{
    Mention {
        topic,
        key: Key {
            entity,
            version: 0,
            id: 0,
            second: 0,
        },
    }
}

//! From a language up to the system language.
ghost use Rattle.std.specs.Prelude.{◌≡◌, ◌≤◌, length, option_and_then};
ghost use Rattle.std.specs.Option.{option_copied};
ghost use Rattle.shop_chain.specs.Chains as spec;

use crate::languages::{Chain, SYSTEM_LANGUAGE};
use crate::numbers::LANGUAGE_PARENT;
use shop_defs::{Entity, Key, Look, Row, Value};

/// The languages in which a text is looked for where the language `context` is asked for, whose row
/// is `row`: it, the parent that its row names, and the system language, each at its first place
/// only. Where there is no row, or it names no parent, the parent is left out. It takes no memory.
#[tactic(auto, using(crate::proofs::Places::places))]
pub fn chain(context: u128, row: Option<&Row>) -> Chain
    ensures value { result ≡ spec.chain context (option_copied row.entry) }
    ensures words { spec.IsChain context (option_and_then spec.parent_of (option_copied row.entry)) result }
{
    with_ancestors(context, parent_of(row)).with(SYSTEM_LANGUAGE)
}

/// The chain of a language, whose row is looked up: languages stand in the live version. It takes no
/// memory.
pub fn chain_of<L: Look>(rows: &L, language: u128) -> Chain
    ensures value { result ≡ spec.chain_of (L.shown rows.now) language }
    ensures words { spec.IsChain language (option_and_then spec.parent_of (L.shown rows.now (spec.language_key language))) result }
{
    chain(language, rows.row(&language_key(language)))
}

/// The parent that the language's row names.
#[tactic(auto, using(crate::proofs::FieldNumbers::numbers))]
fn parent_of(row: Option<&Row>) -> Option<u128>
    ensures { result ≡ option_and_then spec.parent_of (option_copied row.entry) }
{
    match row {
        Some(row) => id_in(row, LANGUAGE_PARENT),
        None => None,
    }
}

/// The language and the parent, if there is one.
#[tactic(auto, using(crate::proofs::Places::places))]
fn with_ancestors(language: u128, parent: Option<u128>) -> Chain
    ensures value { result ≡ spec.each_once (spec.walk (λ _. parent) spec.most_ancestors language) }
    ensures len { length result ≤ 2 }
{
    match parent {
        Some(parent) => Chain::of(language).with(parent),
        None => Chain::of(language),
    }
}

/// The id that the row's own field holds.
pub(crate) fn id_in(row: &Row, field: u8) -> Option<u128>
    ensures { result ≡ spec.id_in row.now field }
{
    match row.field(field) {
        Some(Value::Ident(id)) => Some(*id),
        _ => None,
    }
}

fn language_key(id: u128) -> Key
    ensures { result ≡ spec.language_key id }
{
    Key {
        entity: Entity::Language,
        version: 0,
        id,
        second: 0,
    }
}

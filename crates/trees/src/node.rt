//! Nodes of trees, as rows.
ghost use Rattle.std.specs.Prelude.{◌≡◌};
ghost use Rattle.shop_defs.specs.declared.entity.Entity.TheVariants as Of;
ghost use Rattle.shop_defs.specs.declared.words.FieldName.TheVariants as Named;
ghost use Rattle.row_fields.specs.Fields.{number_of, id_at as the_id_at};
ghost use Rattle.trees.specs.Nodes as spec;

use crate::numbers::{KIND, PARENT};
use row_fields::{id_at, text_at};
use shop_defs::Row;

/// How a node joins what the nodes just below it answer.
#[derive(Drop, Clone, Copy)]
pub enum Join {
    /// It holds where all of them hold.
    And,
    /// It holds where one of them holds.
    Or,
    /// It holds where there is just one, and that one doesn't hold.
    Not,
}

/// The id of the node above: `None` for a root.
#[tactic(auto, using(crate::proofs::FieldNumbers::numbers))]
pub fn parent_of(node: &Row) -> Option<u128>
    ensures conditions { result ≡ spec.parent_of node.now }
    ensures filters { result ≡ the_id_at node.now (number_of Of.StreamFilter Named.Parent) }
{
    id_at(node, PARENT)
}

/// How the node joins those below it: `None` for a leaf.
#[tactic(auto, using(crate::proofs::FieldNumbers::numbers))]
pub fn join_of(node: &Row) -> Option<Join>
    ensures conditions { result ≡ spec.join_of node.now }
    ensures filters { result ≡ spec.join_at (number_of Of.StreamFilter Named.Kind) node.now }
{
    match text_at(node, KIND) {
        Some(word) => join_named(word),
        None => None,
    }
}

fn join_named(word: &[u8]) -> Option<Join>
    ensures { result ≡ spec.join_named word.now }
{
    if word == "and".as_bytes() {
        return Some(Join::And);
    }
    if word == "or".as_bytes() {
        return Some(Join::Or);
    }
    if word == "not".as_bytes() {
        return Some(Join::Not);
    }
    None
}

/// Whether the node stands just below the one with that id: below none, it is a root.
pub(crate) fn is_below(node: &Row, above: Option<u128>) -> bool
    ensures { result ≡ spec.is_below above node.now }
{
    match (parent_of(node), above) {
        (None, None) => true,
        (Some(parent), Some(id)) => parent == id,
        _ => false,
    }
}

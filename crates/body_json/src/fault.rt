//! Why a body says nothing, and the pointers to its wrong places.
ghost use Rattle.std.specs.Prelude.{◌≡◌, [], IfOk, OnErr, string_bytes};
ghost use Rattle.body_json.specs.Pointers.{IsFaultAt, element_pointer, member_pointer, name_pointer};

use shop_defs::{NoMemory, Txt};
use std::alloc::{AllocError, Global};

/// Why a body is not what its request asks for.
#[derive(Drop)]
pub enum BodyFault {
    /// The body is no JSON: it isn't UTF-8, breaks the grammar, nests deeper than 127 levels, or has
    /// a number that no float holds.
    BadJson,
    /// The body is JSON, but not of the form that is wanted.
    BadShape {
        /// The first wrong place. In a batch: `/`, an element's number from 0 on, and where it is a
        /// member of that element `/` and the member's name. In a body that is an object: `/` and the
        /// member's name. A name stands as it is, without escapes. Empty for the whole body.
        pointer: Txt,
    },
    /// Memory was wanted and refused.
    NoMemory,
}

impl From<NoMemory> for BodyFault {
    ghost use Rattle.std.specs.Prelude.{◌≡◌};
    ghost use Rattle.body_json.specs.declared.fault.BodyFault.TheVariants.{NoMemory};

    ghost from_gives = { λ _ fault. fault ≡ NoMemory };

    fn from(_: NoMemory) -> BodyFault {
        BodyFault::NoMemory
    }
}

/// That the whole body is wrong. It takes no memory.
pub fn wrong_body(alloc: Global) -> BodyFault
    ensures { IsFaultAt [] result }
{
    BodyFault::BadShape {
        pointer: Txt::from_string(String::new(alloc)),
    }
}

/// That the element with that number is wrong, counted from 0.
pub fn wrong_element(alloc: Global, at: usize) -> BodyFault
    ensures { IsFaultAt (element_pointer at) result }
{
    at_pointer(format!(in alloc; "/{at}"))
}

/// That a member of that element is missing, malformed or unknown.
pub fn wrong_member(alloc: Global, at: usize, name: &str) -> BodyFault
    ensures { IsFaultAt (member_pointer at name.now) result }
{
    at_pointer(format!(in alloc; "/{at}/{name}"))
}

/// That a member of a body that is an object is missing, malformed or unknown.
pub fn wrong_name(alloc: Global, name: &str) -> BodyFault
    ensures { IsFaultAt (name_pointer name.now) result }
{
    at_pointer(format!(in alloc; "/{name}"))
}

fn at_pointer(pointer: Result<String, AllocError>) -> BodyFault
    ensures some { IfOk pointer (λ text. result ≡ BodyFault.BadShape (string_bytes text)) }
    ensures none { OnErr pointer (result ≡ BodyFault.NoMemory) }
{
    match pointer {
        Ok(text) => BodyFault::BadShape {
            pointer: Txt::from_string(text),
        },
        Err(_) => BodyFault::NoMemory,
    }
}

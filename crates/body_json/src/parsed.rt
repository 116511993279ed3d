//! A body as a JSON value.
ghost use Rattle.serde_json.specs.View.{view};
ghost use Rattle.body_json.specs.Bodies.{IsParsed};

use crate::fault::BodyFault;
use serde_json::{Category, Value};
use std::alloc::Global;

/// The value that a body says. `BadJson` comes exactly where it says none.
pub(crate) fn parse(alloc: Global, body: &[u8]) -> Result<Value, BodyFault>
    ensures { IsParsed view body.now result }
{
    match Value::from_slice(alloc, body) {
        Ok(value) => Ok(value),
        Err(error) => Err(match error.classify() {
            Category::Memory => BodyFault::NoMemory,
            _ => BodyFault::BadJson,
        }),
    }
}

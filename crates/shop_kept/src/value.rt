//! Values of fields, and what an operation gives for a field.
ghost use Rattle.shop_kept.specs.Spelling.{kept_value, kept_given, FitsValue, FitsGiven, IsValue, IsGiven};
ghost use Rattle.shop_kept.specs.Reading.{value_at, given_at};

use crate::fault::DecodeFault;
use crate::numbers::{read_u64, read_u128};
use crate::spelled::Spelled;
use crate::texts::{read_text, write_text};
use shop_defs::{NoMemory, Value};
use std::alloc::Global;

impl Spelled for Value {
    ghost spelled = { kept_value };

    ghost fits = { FitsValue };

    ghost is_kept = { IsValue };

    ghost read_at = { value_at };

    fn room(&self) -> usize {
        match self {
            Value::Flag(_) => 1,
            Value::Int(_) => 1 + 8,
            Value::Text(text) => text.len().saturating_add(1 + 4),
            Value::Ident(_) => 1 + 16,
        }
    }

    fn write(&self, out: &mut Vec<u8>) -> Result<(), NoMemory> {
        match self {
            Value::Flag(false) => out.push(0)?,
            Value::Flag(true) => out.push(1)?,
            Value::Int(number) => {
                out.push(2)?;
                out.extend_from_slice(&number.to_be_bytes())?;
            }
            Value::Text(text) => {
                out.push(3)?;
                write_text(text, out)?;
            }
            Value::Ident(id) => {
                out.push(4)?;
                out.extend_from_slice(&id.to_be_bytes())?;
            }
        }
        Ok(())
    }

    fn read(alloc: Global, bytes: &[u8]) -> Result<(Value, &[u8]), DecodeFault> {
        match bytes {
            [0, rest @ ..] => Ok((Value::Flag(false), rest)),
            [1, rest @ ..] => Ok((Value::Flag(true), rest)),
            [2, rest @ ..] => {
                let (bits, rest) = read_u64(rest)?;
                Ok((Value::Int(bits.cast_signed()), rest))
            }
            [3, rest @ ..] => {
                let (text, rest) = read_text(alloc, rest)?;
                Ok((Value::Text(text), rest))
            }
            [4, rest @ ..] => {
                let (id, rest) = read_u128(rest)?;
                Ok((Value::Ident(id), rest))
            }
            [] => Err(DecodeFault::Malformed),
            [_, ..] => Err(DecodeFault::Malformed),
        }
    }
}

impl Spelled for Option<Value> {
    ghost spelled = { kept_given };

    ghost fits = { FitsGiven };

    ghost is_kept = { IsGiven };

    ghost read_at = { given_at };

    fn room(&self) -> usize {
        match self {
            None => 1,
            Some(value) => value.room(),
        }
    }

    fn write(&self, out: &mut Vec<u8>) -> Result<(), NoMemory> {
        match self {
            None => {
                out.push(5)?;
                Ok(())
            }
            Some(value) => Ok(value.write(out)?),
        }
    }

    #[tactic(auto, unfolding(crate::specs::Reading::given_at))]
    fn read(alloc: Global, bytes: &[u8]) -> Result<(Option<Value>, &[u8]), DecodeFault> {
        match bytes {
            [] => Err(DecodeFault::Malformed),
            [5, rest @ ..] => Ok((None, rest)),
            [_, ..] => {
                let (value, rest) = Value::read(alloc, bytes)?;
                Ok((Some(value), rest))
            }
        }
    }
}

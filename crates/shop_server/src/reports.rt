//! What `check` reports of the rows that a keeper holds.
ghost use Rattle.std.specs.Prelude.{◌≡◌, ◌++◌, decimal, IfOk, OnOk};
ghost use Rattle.reply_json.specs.KeyTexts.{key_text, marked};
ghost use Rattle.shop_server.specs.Reports.{count_lines, damage_line};

use itoa::Buffer;
use shop_check::Rule;
use shop_defs::{Key, NoMemory, entity_name};
use shop_requests::print_id;
use std::alloc::Global;

/// No report is longer than that, in bytes.
const LONGEST_REPORT: usize = 160;

/// How many rows there are, and how many entries of the history led to them.
pub(crate) fn counts(alloc: Global, rows: usize, number: u64) -> Result<Vec<u8>, NoMemory>
    ensures { IfOk result (λ text. text.items ≡ count_lines rows number) }
{
    let mut text = Vec::with_capacity(alloc, LONGEST_REPORT)?;
    text.extend_from_slice(b"rows ")?;
    put_count(&mut text, rows as u64)?;
    text.extend_from_slice(b"\nnumber ")?;
    put_count(&mut text, number)?;
    text.extend_from_slice(b"\n")?;
    Ok(text)
}

/// The key of the first damaged row, and the first rule that it breaks.
pub(crate) fn damage(alloc: Global, key: &Key, rule: Rule) -> Result<Vec<u8>, NoMemory>
    ensures { IfOk result (λ text. text.items ≡ damage_line (key.now, rule)) }
{
    let mut text = Vec::with_capacity(alloc, LONGEST_REPORT)?;
    text.extend_from_slice(b"damaged ")?;
    put_key(&mut text, key)?;
    text.extend_from_slice(b" ")?;
    text.extend_from_slice(rule.text().as_bytes())?;
    text.extend_from_slice(b"\n")?;
    Ok(text)
}

/// Puts the decimal digits of a count.
fn put_count(out: &mut Vec<u8>, count: u64) -> Result<(), NoMemory>
    ensures { OnOk result (out.new.items ≡ out.old.items ++ decimal count) }
{
    let mut digits = Buffer::new();
    out.extend_from_slice(digits.format(count).as_bytes())?;
    Ok(())
}

/// Puts the text of a key: `ENTITY/ID`, then `/SECOND` and `@VERSION` where the key has them, each number as 32 digits.
#[tactic(auto, unfolding(reply_json::specs::KeyTexts::key_text))]
fn put_key(out: &mut Vec<u8>, key: &Key) -> Result<(), NoMemory>
    ensures { OnOk result (out.new.items ≡ out.old.items ++ key_text key.now) }
{
    out.extend_from_slice(entity_name(key.entity).as_bytes())?;
    out.extend_from_slice(b"/")?;
    out.extend_from_slice(&print_id(key.id))?;
    put_marked(out, b"/", key.second)?;
    put_marked(out, b"@", key.version)
}

/// Puts a number of a key behind a mark, where it isn't 0.
fn put_marked(out: &mut Vec<u8>, mark: &[u8], number: u128) -> Result<(), NoMemory>
    ensures { OnOk result (out.new.items ≡ out.old.items ++ marked mark.now number) }
{
    if number != 0 {
        out.extend_from_slice(mark)?;
        out.extend_from_slice(&print_id(number))?;
    }
    Ok(())
}

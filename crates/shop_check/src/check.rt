//! Whether what is kept are rows of a shop.
ghost use Rattle.std.specs.Prelude.{◌≡◌, ◌&&◌, List, Some, None, true, IfOk, IfErr, IfSome, MatchResult};
ghost use Rattle.shop_defs.specs.declared.row.Row.{Row};
ghost use Rattle.shop_defs.specs.Rows.{IsInKeyOrder};
ghost use Rattle.shop_kept.specs.Reading.{read_kept};
ghost use Rattle.shop_check.specs.Soundness as spec;
ghost use Rattle.shop_check.specs.Damage.{is_above, row_seen, seen, first_damage, Tells, FaultInWords, IsWantOfMemory, HoldBytes, KeptRowsAreUndamaged, UndamagedAreKept};
ghost use Rattle.shop_check.specs.Found.{own_rule, own_failed, own_damage, tried_from, first_among, earlier_or, are_formed, IsReadOf, IsReadAs, IsRuleOf, IsInOrderWhere};

use crate::among::{first_broken, rule_broken};
use crate::fault::{CheckFault, Rule};
use crate::indexed::owners_are_within;
use crate::kind::passes_kind;
use shop_defs::{Key, List, NoMemory, Row, has_needed};
use shop_kept::{DecodeFault, decode_row};
use shop_rows::Rows;
use std::alloc::Global;

/// The rows whose kept bytes these are, each under its key.
///
/// `Damaged` comes exactly where an entry fails a rule, unless memory runs out before that is known.
/// It names the first such entry in the order in which they come, with the first rule that it fails,
/// in the order of `Rule`. The other error is want of memory. Over sound rows it costs a search for
/// each row and what the row refers to.
pub fn check_rows(alloc: Global, kept: &[(Key, List<u8>)]) -> Result<Rows, CheckFault>
    // Nothing is damaged, or this is the first damage.
    ensures exact { Tells result (first_damage kept.now) }
    // The rows are sound, and theirs are the bytes.
    ensures found { IfOk result (λ rows. spec.AreSound rows.list) }
    ensures bytes { IfOk result (λ rows. spec.kept rows.list ≡ kept.now) }
    // Before the damaged entry no entry fails a rule.
    ensures first { IfErr result (FaultInWords kept.now) }
    // What is kept of sound rows gives these rows.
    ensures sound { (rows : List Row) → spec.AreSound rows → spec.kept rows ≡ kept.now → MatchResult result (λ found. found.list ≡ rows) IsWantOfMemory }
{
    let front = read_front(alloc, kept)?;
    match front.damage {
        None => check_all(alloc, front.rows),
        Some(later) => {
            let (key, rule) = earlier_damage(alloc, kept, front.rows.as_slice(), later)?;
            Err(CheckFault::Damaged { key, rule })
        }
    }
}

/// What the check rests on: sound rows are kept undamaged, and nothing else is undamaged.
pub fn law_of_the_check()
    ensures kept { KeptRowsAreUndamaged }
    ensures undamaged { UndamagedAreKept }
{}

/// The rows of the entries before the first that fails one of the first four rules, and that
/// entry's key with the first rule that it fails, if there is one.
#[derive(Drop)]
struct Front {
    rows: Vec<Row>,
    damage: Option<(Key, Rule)>,
}

fn read_front(alloc: Global, kept: &[(Key, List<u8>)]) -> Result<Front, NoMemory>
    ensures rows { IfOk result (λ front. front.rows.items ≡ tried_from None kept.now) }
    ensures damage { IfOk result (λ front. front.damage ≡ own_damage None kept.now) }
    ensures bytes { IfOk result (λ front. front.damage ≡ None → HoldBytes kept.now) }
{
    let mut rows = Vec::with_capacity(alloc, kept.len())?;
    let mut before = None;
    let mut rest = kept;
    while let [entry, more @ ..] = rest {
        match read_entry(alloc, before, entry)? {
            Ok(row) => rows.push(row)?,
            Err(rule) => {
                let damage = Some((entry.0, rule));
                return Ok(Front { rows, damage });
            }
        }
        before = Some(entry.0);
        rest = more;
    }
    Ok(Front { rows, damage: None })
}

/// The row of an entry, behind an entry with the key before, or the first of the first four rules
/// that it fails.
fn read_entry(
    alloc: Global,
    before: Option<Key>,
    entry: &(Key, List<u8>),
) -> Result<Result<Row, Rule>, NoMemory>
    ensures { IfOk result (IsReadAs before entry.now) }
{
    let (key, bytes) = entry;
    if !stands_above(before, key) {
        return Ok(Err(Rule::Order));
    }
    read_bytes(alloc, key, bytes.as_slice())
}

/// The row that the bytes give, or the first of the rules `encoding`, `kind` and `required` that
/// they fail.
fn read_bytes(alloc: Global, key: &Key, bytes: &[u8]) -> Result<Result<Row, Rule>, NoMemory>
    ensures { IfOk result (IsReadOf key.now bytes.now) }
{
    match decode_row(alloc, key, bytes) {
        Ok(row) => Ok(passed(row)),
        Err(DecodeFault::Malformed) => Ok(Err(Rule::Encoding)),
        Err(DecodeFault::NoMemory) => Err(NoMemory),
    }
}

/// The row, where it fails no rule of its own.
fn passed(row: Row) -> Result<Row, Rule>
    ensures { IsRuleOf row result }
{
    if !passes_kind(&row) {
        return Err(Rule::Kind);
    }
    if !has_needed(&row) {
        return Err(Rule::Required);
    }
    Ok(row)
}

/// Whether the key is above the one before, if there is one.
fn stands_above(before: Option<Key>, key: &Key) -> bool
    ensures { result ≡ is_above before key.now }
{
    match before {
        None => true,
        Some(before) => before.order(key).is_lt(),
    }
}

/// The rows, where none fails a rule among them all.
fn check_all(alloc: Global, rows: Vec<Row>) -> Result<Rows, CheckFault>
    requires order { IsInKeyOrder rows.items }
    requires formed { are_formed rows.items ≡ true }
    ensures exact { Tells result (first_among rows.items rows.items) }
    ensures same { IfOk result (λ found. found.list ≡ rows.items) }
{
    let rows = Rows::from_ascending(alloc, rows)?;
    match first_broken_of_all(&rows) {
        None => Ok(rows),
        Some((key, rule)) => Err(CheckFault::Damaged { key, rule }),
    }
}

/// The key of the first of the rows that fails a rule among them all, with that rule.
fn first_broken_of_all(rows: &Rows) -> Option<(Key, Rule)>
    requires { are_formed rows.now.list ≡ true }
    ensures { result ≡ first_among rows.now.list rows.now.list }
{
    let known_within = owners_are_within(rows);
    let mut rest = rows.iter();
    while let Some(row) = rest.next() {
        if let Some(rule) = rule_broken(rows, row, known_within) {
            return Some((row.key, rule));
        }
    }
    None
}

/// The damage of the first of the tried rows that fails a rule among all rows that rules see, or
/// else the later one.
fn earlier_damage(
    alloc: Global,
    kept: &[(Key, List<u8>)],
    tried: &[Row],
    later: (Key, Rule),
) -> Result<(Key, Rule), NoMemory>
    ensures { IfOk result (λ damage. Some damage ≡ earlier_or (first_among (seen kept.now) tried.now) (Some later)) }
{
    let rows = seen_rows(alloc, kept)?;
    let earlier = if are_in_order(rows.as_slice()) {
        first_among_ordered(alloc, rows, tried)?
    } else {
        first_broken(&rows, tried, false)
    };
    Ok(earlier.unwrap_or(later))
}

fn first_among_ordered(
    alloc: Global,
    rows: Vec<Row>,
    tried: &[Row],
) -> Result<Option<(Key, Rule)>, NoMemory>
    requires order { IsInKeyOrder rows.items }
    requires formed { are_formed rows.items ≡ true }
    ensures { IfOk result (λ damage. damage ≡ first_among rows.items tried.now) }
{
    let rows = Rows::from_ascending(alloc, rows)?;
    Ok(first_broken(&rows, tried, owners_are_within(&rows)))
}

/// The rows of the entries that fail none of the first three rules.
fn seen_rows(alloc: Global, kept: &[(Key, List<u8>)]) -> Result<Vec<Row>, NoMemory>
    ensures { IfOk result (λ rows. rows.items ≡ seen kept.now) }
{
    let mut rows = Vec::new(alloc);
    let mut before = None;
    let mut rest = kept;
    while let [entry, more @ ..] = rest {
        if let Some(row) = seen_row(alloc, before, entry)? {
            rows.push(row)?;
        }
        before = Some(entry.0);
        rest = more;
    }
    Ok(rows)
}

/// The row of an entry that fails none of the first three rules, behind an entry with the key
/// before.
fn seen_row(
    alloc: Global,
    before: Option<Key>,
    entry: &(Key, List<u8>),
) -> Result<Option<Row>, NoMemory>
    ensures { IfOk result (λ row. row ≡ row_seen before entry.now) }
{
    let (key, bytes) = entry;
    if !stands_above(before, key) {
        return Ok(None);
    }
    match decode_row(alloc, key, bytes.as_slice()) {
        Ok(row) if passes_kind(&row) => Ok(Some(row)),
        Ok(_) => Ok(None),
        Err(DecodeFault::Malformed) => Ok(None),
        Err(DecodeFault::NoMemory) => Err(NoMemory),
    }
}

/// Whether the rows ascend by key. Behind an entry out of order they may not.
fn are_in_order(rows: &[Row]) -> bool
    ensures { IsInOrderWhere result rows.now }
{
    let mut before = None;
    let mut rest = rows;
    while let [row, more @ ..] = rest {
        if !stands_above(before, &row.key) {
            return false;
        }
        before = Some(row.key);
        rest = more;
    }
    true
}

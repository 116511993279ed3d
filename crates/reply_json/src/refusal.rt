//! What replies say of refusals.
ghost use Rattle.std.specs.Prelude.{◌≡◌, ◌++◌, ◌∷◌, [], codes, IfOk, OnOk};
ghost use Rattle.std.specs.Fmt.{signed_decimal};
ghost use Rattle.serde_json.specs.Data.{string};
ghost use Rattle.serde_json.specs.Written.{compact_text};
ghost use Rattle.shop_defs.specs.Texts.{entity_text};
ghost use Rattle.reply_json.specs.Objects.{count_data, id_data, key_data, number_data};
ghost use Rattle.reply_json.specs.Refusals as spec;
ghost use Rattle.reply_json.specs.Tokens.{value_tokens};

use crate::body::Body;
use shop_defs::{Broken, Entity, Key, List, NoMemory, Refused, Txt, entity_name};
use std::alloc::Global;

/// The body that says which rule is broken: `{"error":NAME}`, and in members of their own what it is
/// broken by and, where it is broken by an operation of a batch, the number of that as `op`. Want of
/// memory is the only error.
pub fn refusal_text(alloc: Global, refused: &Refused) -> Result<List<u8>, NoMemory>
    ensures { IfOk result (λ body. body ≡ compact_text (spec.refusal_data refused.now)) }
{
    let mut out = Body::new(alloc)?;
    put_broken(&mut out, &refused.broken, refused.op)?;
    Ok(out.finish())
}

/// The status of the reply that says which rule is broken (RFC 9110, section 15).
pub fn refusal_status(broken: &Broken) -> u16
    ensures { result ≡ spec.refusal_status broken.now }
{
    match broken {
        Broken::UnknownEntity
        | Broken::UnknownField { .. }
        | Broken::WrongKind { .. }
        | Broken::OutOfRange { .. }
        | Broken::NotVersioned { .. }
        | Broken::MissingRequired { .. } => 400,
        Broken::NoSuchVersion { .. } | Broken::NoSuchRow { .. } | Broken::NoSuchCart { .. } => 404,
        _ => 409,
    }
}

fn error_name(broken: &Broken) -> &'static str
    ensures { result.now ≡ spec.error_text broken.now }
{
    match broken {
        Broken::UnknownEntity => "unknown_entity",
        Broken::UnknownField { .. } => "unknown_field",
        Broken::WrongKind { .. } => "wrong_kind",
        Broken::OutOfRange { .. } => "out_of_range",
        Broken::NotVersioned { .. } => "not_versioned",
        Broken::NoSuchVersion { .. } => "no_such_version",
        Broken::VersionExists { .. } => "version_exists",
        Broken::OutsideDraft { .. } => "outside_draft",
        Broken::NoSuchRow { .. } => "no_such_row",
        Broken::FixedField { .. } => "fixed_field",
        Broken::MissingRequired { .. } => "missing_required",
        Broken::MissingReference { .. } => "missing_reference",
        Broken::Duplicate { .. } => "duplicate",
        Broken::ParentCycle { .. } => "parent_cycle",
        Broken::ParentTooDeep { .. } => "parent_too_deep",
        Broken::InUse { .. } => "in_use",
        Broken::TooMany { .. } => "too_many",
        Broken::MergeBroken { .. } => "merge_broken",
        Broken::OrderExists { .. } => "order_exists",
        Broken::NoSuchCart { .. } => "no_such_cart",
        Broken::CartEmpty { .. } => "cart_empty",
        Broken::Unstable { .. } => "unstable",
        Broken::Blocked { .. } => "blocked",
        Broken::BadTransition { .. } => "bad_transition",
        Broken::StockShort { .. } => "stock_short",
        Broken::HistoryFull => "history_full",
    }
}

/// Puts the number of the operation that breaks the rule, where one does.
fn put_op(out: &mut Body, op: u32) -> Result<(), NoMemory>
    ensures { OnOk result (out.new ≡ out.old ++ spec.op_tokens op) }
{
    if op == 0 {
        return Ok(());
    }
    out.count_member("op", op)
}

/// Puts a rule that has no parts.
fn put_bare(out: &mut Body, error: &str, op: u32) -> Result<(), NoMemory>
    ensures { OnOk result (out.new ≡ out.old ++ value_tokens (spec.refusal_of op error.now [])) }
{
    out.begin_object()?;
    out.text_member("error", error)?;
    put_op(out, op)?;
    out.end_object()
}

fn put_of_field(out: &mut Body, error: &str, field: &Txt, op: u32) -> Result<(), NoMemory>
    ensures { OnOk result (out.new ≡ out.old ++ value_tokens (spec.refusal_of op error.now ((codes "field", string field.now) ∷ []))) }
{
    out.begin_object()?;
    out.text_member("error", error)?;
    out.text_member("field", field.as_str())?;
    put_op(out, op)?;
    out.end_object()
}

fn put_of_id(out: &mut Body, error: &str, id: u128, op: u32) -> Result<(), NoMemory>
    ensures { OnOk result (out.new ≡ out.old ++ value_tokens (spec.refusal_of op error.now ((codes "id", id_data id) ∷ []))) }
{
    out.begin_object()?;
    out.text_member("error", error)?;
    out.id_member("id", id)?;
    put_op(out, op)?;
    out.end_object()
}

fn put_of_key(out: &mut Body, error: &str, key: &Key, op: u32) -> Result<(), NoMemory>
    ensures { OnOk result (out.new ≡ out.old ++ value_tokens (spec.refusal_of op error.now ((codes "key", key_data key.now) ∷ []))) }
{
    out.begin_object()?;
    out.text_member("error", error)?;
    out.key_member("key", key)?;
    put_op(out, op)?;
    out.end_object()
}

fn put_of_version(out: &mut Body, error: &str, version: u128, op: u32) -> Result<(), NoMemory>
    ensures { OnOk result (out.new ≡ out.old ++ value_tokens (spec.refusal_of op error.now ((codes "version", id_data version) ∷ []))) }
{
    out.begin_object()?;
    out.text_member("error", error)?;
    put_op(out, op)?;
    out.id_member("version", version)?;
    out.end_object()
}

fn put_not_versioned(out: &mut Body, error: &str, entity: Entity, op: u32) -> Result<(), NoMemory>
    ensures { OnOk result (out.new ≡ out.old ++ value_tokens (spec.refusal_of op error.now ((codes "entity", string (entity_text entity)) ∷ []))) }
{
    out.begin_object()?;
    out.text_member("entity", entity_name(entity))?;
    out.text_member("error", error)?;
    put_op(out, op)?;
    out.end_object()
}

fn put_in_use(out: &mut Body, error: &str, by: &Key, op: u32) -> Result<(), NoMemory>
    ensures { OnOk result (out.new ≡ out.old ++ value_tokens (spec.refusal_of op error.now ((codes "by", key_data by.now) ∷ []))) }
{
    out.begin_object()?;
    out.key_member("by", by)?;
    out.text_member("error", error)?;
    put_op(out, op)?;
    out.end_object()
}

fn put_out_of_range(
    out: &mut Body,
    error: &str,
    field: &Txt,
    value: &i128,
    op: u32,
) -> Result<(), NoMemory>
    ensures { OnOk result (out.new ≡ out.old ++ value_tokens (spec.refusal_of op error.now ((codes "field", string field.now) ∷ (codes "value", string (signed_decimal value.now)) ∷ []))) }
{
    out.begin_object()?;
    out.text_member("error", error)?;
    out.text_member("field", field.as_str())?;
    put_op(out, op)?;
    out.wide_member("value", value)?;
    out.end_object()
}

fn put_missing_reference(
    out: &mut Body,
    error: &str,
    field: &Txt,
    id: u128,
    op: u32,
) -> Result<(), NoMemory>
    ensures { OnOk result (out.new ≡ out.old ++ value_tokens (spec.refusal_of op error.now ((codes "field", string field.now) ∷ (codes "id", id_data id) ∷ []))) }
{
    out.begin_object()?;
    out.text_member("error", error)?;
    out.text_member("field", field.as_str())?;
    out.id_member("id", id)?;
    put_op(out, op)?;
    out.end_object()
}

fn put_too_many(
    out: &mut Body,
    error: &str,
    entity: Entity,
    limit: u32,
    op: u32,
) -> Result<(), NoMemory>
    ensures { OnOk result (out.new ≡ out.old ++ value_tokens (spec.refusal_of op error.now ((codes "entity", string (entity_text entity)) ∷ (codes "limit", count_data limit) ∷ []))) }
{
    out.begin_object()?;
    out.text_member("entity", entity_name(entity))?;
    out.text_member("error", error)?;
    out.count_member("limit", limit)?;
    put_op(out, op)?;
    out.end_object()
}

fn put_blocked(
    out: &mut Body,
    error: &str,
    line: u128,
    cause: &Txt,
    op: u32,
) -> Result<(), NoMemory>
    ensures { OnOk result (out.new ≡ out.old ++ value_tokens (spec.refusal_of op error.now ((codes "line", id_data line) ∷ (codes "cause", string cause.now) ∷ []))) }
{
    out.begin_object()?;
    out.text_member("cause", cause.as_str())?;
    out.text_member("error", error)?;
    out.id_member("line", line)?;
    put_op(out, op)?;
    out.end_object()
}

fn put_bad_transition(
    out: &mut Body,
    error: &str,
    state: &Txt,
    action: &Txt,
    op: u32,
) -> Result<(), NoMemory>
    ensures { OnOk result (out.new ≡ out.old ++ value_tokens (spec.refusal_of op error.now ((codes "state", string state.now) ∷ (codes "action", string action.now) ∷ []))) }
{
    out.begin_object()?;
    out.text_member("action", action.as_str())?;
    out.text_member("error", error)?;
    put_op(out, op)?;
    out.text_member("state", state.as_str())?;
    out.end_object()
}

fn put_stock_short(
    out: &mut Body,
    error: &str,
    product: u128,
    have: &i64,
    want: &i64,
    op: u32,
) -> Result<(), NoMemory>
    ensures { OnOk result (out.new ≡ out.old ++ value_tokens (spec.refusal_of op error.now ((codes "product", id_data product) ∷ (codes "have", number_data have.now) ∷ (codes "want", number_data want.now) ∷ []))) }
{
    out.begin_object()?;
    out.text_member("error", error)?;
    out.number_member("have", have)?;
    put_op(out, op)?;
    out.id_member("product", product)?;
    out.number_member("want", want)?;
    out.end_object()
}

/// Puts a merge that is refused: the operation of the draft, and the rule that it breaks.
#[cycle(refusal)]
fn put_merge_broken(
    out: &mut Body,
    error: &str,
    commit: u32,
    op: u32,
    inner: &Broken,
) -> Result<(), NoMemory>
    ensures { OnOk result (out.new ≡ out.old ++ value_tokens (spec.refusal_of 0 error.now ((codes "commit", count_data commit) ∷ (codes "op", count_data op) ∷ (codes "inner", spec.broken_data inner.now 0) ∷ []))) }
{
    out.begin_object()?;
    out.count_member("commit", commit)?;
    out.text_member("error", error)?;
    out.name("inner")?;
    put_broken(out, inner, 0)?;
    out.count_member("op", op)?;
    out.end_object()
}

/// Puts a rule that the operation with that number breaks, or none where it is 0.
#[cycle(refusal)]
fn put_broken(out: &mut Body, broken: &Broken, op: u32) -> Result<(), NoMemory>
    ensures { OnOk result (out.new ≡ out.old ++ value_tokens (spec.broken_data broken.now op)) }
{
    let error = error_name(broken);
    match broken {
        Broken::UnknownEntity | Broken::HistoryFull => put_bare(out, error, op),
        Broken::UnknownField { field }
        | Broken::WrongKind { field }
        | Broken::FixedField { field }
        | Broken::MissingRequired { field } => put_of_field(out, error, field, op),
        Broken::OutsideDraft { key } | Broken::NoSuchRow { key } | Broken::Duplicate { key } => {
            put_of_key(out, error, key, op)
        }
        Broken::ParentCycle { id }
        | Broken::ParentTooDeep { id }
        | Broken::OrderExists { id }
        | Broken::NoSuchCart { id }
        | Broken::CartEmpty { id }
        | Broken::Unstable { id } => put_of_id(out, error, *id, op),
        Broken::NoSuchVersion { version } | Broken::VersionExists { version } => {
            put_of_version(out, error, *version, op)
        }
        Broken::OutOfRange { field, value } => put_out_of_range(out, error, field, value, op),
        Broken::NotVersioned { entity } => put_not_versioned(out, error, *entity, op),
        Broken::MissingReference { field, id } => put_missing_reference(out, error, field, *id, op),
        Broken::InUse { by } => put_in_use(out, error, by, op),
        Broken::TooMany { entity, limit } => put_too_many(out, error, *entity, *limit, op),
        Broken::MergeBroken { commit, op, inner } => {
            put_merge_broken(out, error, *commit, *op, inner.get())
        }
        Broken::Blocked { line, cause } => put_blocked(out, error, *line, cause, op),
        Broken::BadTransition { state, action } => put_bad_transition(
            out, error, state, action, op,
        ),
        Broken::StockShort {
            product,
            have,
            want,
        } => { put_stock_short(out, error, *product, have, want, op) }
    }
}

//! What replies say of malformed requests.
ghost use Rattle.std.specs.Prelude.{◌≡◌, ◌++◌, ◌∷◌, [], codes, IfOk, OnOk};
ghost use Rattle.serde_json.specs.Data.{string};
ghost use Rattle.serde_json.specs.Written.{compact_text};
ghost use Rattle.reply_json.specs.Faults as spec;
ghost use Rattle.reply_json.specs.Objects.{object_of};
ghost use Rattle.reply_json.specs.Tokens.{value_tokens};

use crate::body::Body;
use shop_defs::{List, NoMemory, Txt};
use shop_requests::LineFault;
use std::alloc::Global;

/// The body that says what is wrong with a request: `{"error":NAME}`, and in a member of its own the
/// part of the path, the header or the pointer. Want of memory is the only error.
pub fn fault_text(alloc: Global, fault: &LineFault) -> Result<List<u8>, NoMemory>
    ensures { IfOk result (λ body. body ≡ compact_text (spec.fault_data fault.now)) }
{
    let mut out = Body::new(alloc)?;
    put_fault(&mut out, fault)?;
    Ok(out.finish())
}

/// The status of the reply that says what is wrong with a request (RFC 9110, section 15).
pub fn fault_status(fault: &LineFault) -> u16
    ensures { result ≡ spec.fault_status fault.now }
{
    match fault {
        LineFault::NoRoute => 404,
        LineFault::WrongMethod => 405,
        LineFault::BodyTooLarge => 413,
        LineFault::Chunked | LineFault::NotBuilt => 501,
        _ => 400,
    }
}

fn fault_name(fault: &LineFault) -> &'static str
    ensures { result.now ≡ spec.fault_name fault.now }
{
    match fault {
        LineFault::NotBuilt => "not_built",
        LineFault::BadHead => "bad_head",
        LineFault::Chunked => "chunked",
        LineFault::BodyTooLarge => "body_too_large",
        LineFault::NoRoute => "no_route",
        LineFault::WrongMethod => "wrong_method",
        LineFault::BadPath(_) => "bad_path",
        LineFault::BadHeader(_) => "bad_header",
        LineFault::BadJson => "bad_json",
        LineFault::BadShape(_) => "bad_shape",
    }
}

fn put_fault(out: &mut Body, fault: &LineFault) -> Result<(), NoMemory>
    ensures { OnOk result (out.new ≡ out.old ++ value_tokens (spec.fault_data fault.now)) }
{
    let error = fault_name(fault);
    match fault {
        LineFault::BadPath(part) => put_fault_at(out, error, "part", part),
        LineFault::BadHeader(name) => put_fault_at(out, error, "name", name),
        LineFault::BadShape(pointer) => put_fault_at(out, error, "pointer", pointer),
        _ => put_plain_fault(out, error),
    }
}

fn put_plain_fault(out: &mut Body, error: &str) -> Result<(), NoMemory>
    ensures { OnOk result (out.new ≡ out.old ++ value_tokens (object_of ((codes "error", string error.now) ∷ []))) }
{
    out.begin_object()?;
    out.text_member("error", error)?;
    out.end_object()
}

/// A fault with the place that it is at.
fn put_fault_at(out: &mut Body, error: &str, name: &str, place: &Txt) -> Result<(), NoMemory>
    ensures { OnOk result (out.new ≡ out.old ++ spec.fault_tokens error.now name.now place.now) }
{
    out.begin_object()?;
    out.text_member("error", error)?;
    out.text_member(name, place.as_str())?;
    out.end_object()
}

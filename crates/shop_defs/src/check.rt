//! What a field may keep.
ghost use Rattle.std.specs.Prelude.{◌≡◌, map};
ghost use Rattle.std.specs.List.{list_any};
ghost use Rattle.std.specs.Str.{bytes_eq};
ghost use Rattle.shop_defs.specs.Checks as spec;

use crate::day::is_day_number;
use crate::table::FieldKind;
use crate::value::Value;
use crate::words::Choice;

/// Whether a field of that kind may keep the value: of a text the length in bytes is in range, an
/// id isn't 0, and a day is from 1970-01-01 to 9999-12-30. It takes no memory.
pub fn value_fits(kind: FieldKind, value: &Value) -> bool
    ensures { result ≡ spec.fits kind value.now }
{
    match (kind, value) {
        (FieldKind::Flag, Value::Flag(_)) => true,
        (FieldKind::Int { low, high }, Value::Int(number)) => low <= *number && *number <= high,
        (FieldKind::Interval, Value::Int(number)) => is_interval(*number),
        (FieldKind::Text { low, high }, Value::Text(text)) => {
            low <= text.len() && text.len() <= high
        }
        (FieldKind::Choice(choice), Value::Text(text)) => is_word(choice, text.as_bytes()),
        (FieldKind::Id(_), Value::Ident(id)) => *id != 0,
        (FieldKind::Loose, Value::Ident(id)) => *id != 0,
        (FieldKind::Day, Value::Int(days)) => is_day_number(*days),
        _ => false,
    }
}

/// Whether totals may be rounded to that number of minor units.
pub fn is_interval(number: i64) -> bool
    ensures { result ≡ spec.is_interval number }
{
    number == 1 || number == 5 || number == 10 || number == 50 || number == 100
}

/// Whether the text is one of the words.
pub fn is_word(choice: Choice, text: &[u8]) -> bool
    ensures { result ≡ spec.is_word choice text.now }
{
    has_word(choice.texts(), text)
}

fn has_word(words: &[&str], text: &[u8]) -> bool
    ensures { result ≡ list_any (λ word. bytes_eq word text.now) (map (λ word. word.now) words.now) }
{
    let mut rest = words;
    while let [word, more @ ..] = rest {
        if word.as_bytes() == text {
            return true;
        }
        rest = more;
    }
    false
}

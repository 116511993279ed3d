//! Ids as texts of 32 digits.
//!
//! An id is a 128-bit number other than 0. Its text is its 32 digits in base 16, the most
//! significant first, with the letters `a` to `f` in lower case and no dashes.
ghost use Rattle.std.specs.Prelude.{◌≡◌, ◌<◌, true, length, IfSome};
ghost use Rattle.std.specs.List.{list_all};
ghost use Rattle.shop_requests.specs.Ids.{hex_number, id_of, id_text, is_id_digit as is_digit, unless_zero};

use uuid::Uuid;

/// How many digits the text of an id has.
const DIGITS: usize = 32;

/// Whether a byte is a digit of the text of an id.
fn is_id_digit(byte: u8) -> bool
    ensures { result ≡ is_digit byte }
{
    matches!(byte, b'0'..=b'9' | b'a'..=b'f')
}

/// Whether each byte is such a digit.
fn has_id_digits(text: &[u8]) -> bool
    ensures { result ≡ list_all is_digit text.now }
{
    text.iter().all(|byte| is_id_digit(*byte))
}

/// The number that 32 digits spell.
fn number_of(digits: &[u8]) -> u128
    requires long { length digits.now ≡ DIGITS }
    requires passes { list_all is_digit digits.now ≡ true }
    ensures { result ≡ hex_number digits.now }
{
    Uuid::try_parse_ascii(digits).unwrap().as_u128()
}

/// The id that a text is: `Some` exactly for 32 digits `0` to `9` and `a` to `f` that are not all
/// `0`. It takes no memory.
pub fn read_id(text: &[u8]) -> Option<u128>
    ensures value { result ≡ id_of text.now }
    // A text that reads as an id is the one that is printed for it.
    ensures prints { IfSome result (λ id. id_text id ≡ text.now) }
    ensures positive { IfSome result (λ id. 0 < id) }
{
    if text.len() != DIGITS {
        return None;
    }
    if !has_id_digits(text) {
        return None;
    }
    let id = number_of(text);
    if id == 0 { None } else { Some(id) }
}

/// The text of an id, its 32 digits, written into a buffer and lent. It takes no memory.
///
/// The text reads as that id again. For 0, which is no id, it is 32 times `0`, which reads as none.
pub fn write_id(id: u128, buffer: &mut [u8; 32]) -> &str
    ensures text { result.now ≡ id_text id }
    ensures reads { id_of result.now ≡ unless_zero id }
{
    Uuid::from_u128(id).simple().encode_lower(buffer)
}

/// The text of an id: its 32 digits, as `write_id` lends them. It takes no memory.
pub fn print_id(id: u128) -> [u8; 32]
    ensures text { result ≡ id_text id }
    ensures reads { id_of result ≡ unless_zero id }
{
    let mut buffer = [0; DIGITS];
    let mut digits = [0; DIGITS];
    digits.copy_from_slice(write_id(id, &mut buffer).as_bytes());
    digits
}

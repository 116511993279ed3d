//! Numbers in digits.
ghost use Rattle.std.specs.Prelude.{◌≡◌, ◌<◌, ◌≤◌, ◌^◌, ◌+◌, ◌-◌, ◌*◌, min, true};
ghost use Rattle.std.specs.List.{list_all};
ghost use Rattle.std.specs.Char.{is_ascii_digit};
ghost use Rattle.std.specs.Str.Parse.{digits_value};
ghost use Rattle.shop_routes.specs.DigitTexts as spec;

use shop_requests::read_id;

/// The last page of a listing.
const LAST_PAGE: u64 = 999_999_999;

/// The highest front that a request may wait for.
const LAST_FRONT: u64 = 9_223_372_036_854_775_807;

/// How many digits a front has at most.
const FRONT_DIGITS: usize = 19;

/// The text that stands for no id.
const NIL: &[u8] = b"00000000000000000000000000000000";

/// Whether a text is one or more digits.
fn is_number(text: &[u8]) -> bool
    ensures { result ≡ spec.is_number text.now }
{
    !text.is_empty() && text.iter().all(|byte| byte.is_ascii_digit())
}

/// The number that the digits spell, however many there are, or one more than `most` where it is larger than that.
fn capped_number(digits: &[u8], most: u64) -> u64
    requires digits { list_all is_ascii_digit digits.now ≡ true }
    requires room { most + 1 < 2 ^ 64 }
    ensures { result ≡ min (digits_value 10 digits.now) (most + 1) }
{
    let mut number = 0;
    for digit in digits {
        number = one_more(number, *digit, most);
    }
    number
}

fn one_more(number: u64, digit: u8, most: u64) -> u64
    requires digit { is_ascii_digit digit ≡ true }
    requires room { most + 1 < 2 ^ 64 }
    requires capped { number ≤ most + 1 }
    ensures { result ≡ min (number * 10 + (digit - 48)) (most + 1) }
{
    let more = u128::from(number) * 10 + u128::from(digit - b'0');
    more.min(u128::from(most) + 1) as u64
}

/// The number that the digits spell, where it is at most `most`.
fn number_within(digits: &[u8], most: u64) -> Option<u64>
    requires digits { list_all is_ascii_digit digits.now ≡ true }
    requires room { most + 1 < 2 ^ 64 }
    ensures { result ≡ spec.number_within most digits.now }
{
    let number = capped_number(digits, most);
    if number <= most { Some(number) } else { None }
}

/// The page that a text is: `Some` exactly for 1 to 999,999,999 in digits without leading zeros.
pub fn read_page(text: &[u8]) -> Option<u32>
    ensures { result ≡ spec.page_of text.now }
{
    if is_number(text) && text[0] != b'0' {
        page_within(text)
    } else {
        None
    }
}

fn page_within(digits: &[u8]) -> Option<u32>
    requires { list_all is_ascii_digit digits.now ≡ true }
    ensures { result ≡ spec.number_within LAST_PAGE digits.now }
{
    match number_within(digits, LAST_PAGE) {
        Some(page) => Some(page as u32),
        None => None,
    }
}

/// The front that a text is: `Some` exactly for 1 to 19 digits that spell at most 2^63 - 1.
pub fn read_front(text: &[u8]) -> Option<u64>
    ensures { result ≡ spec.front_of text.now }
{
    if is_number(text) && text.len() <= FRONT_DIGITS {
        number_within(text, LAST_FRONT)
    } else {
        None
    }
}

/// The id that a text is, and 0 for 32 digits `0`.
pub fn read_id_or_nil(text: &[u8]) -> Option<u128>
    ensures { result ≡ spec.id_or_nil text.now }
{
    if text == NIL { Some(0) } else { read_id(text) }
}

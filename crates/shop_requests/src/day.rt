//! Days as texts `YYYY-MM-DD`, by the proleptic Gregorian calendar (ISO 8601).
ghost use Rattle.std.specs.Prelude.{◌≡◌, ◌≤◌, ◌<◌, ◌^◌, length, IsTrue, Some, IfSome};
ghost use Rattle.jiff.specs.Words.{epoch_day};
ghost use Rattle.shop_defs.specs.Days.{is_day_number};
ghost use Rattle.shop_requests.specs.Days as spec;

use jiff::civil::Date;
use jiff_core::civil;

/// The day that a text is, as its number of days after 1970-01-01.
///
/// `Some` exactly for four, two and two digits, with dashes between them, that are a day of the
/// calendar from 1970-01-01 to 9999-12-30. It takes no memory.
#[tactic(auto, unfolding(crate::specs::Days::day_of))]
pub fn read_day(text: &[u8]) -> Option<i64>
    ensures value { result ≡ spec.day_of text.now }
    ensures range { IfSome result (λ days. IsTrue (is_day_number days)) }
{
    if text.len() != 10 || text[4] != b'-' || text[7] != b'-' {
        return None;
    }
    day_of_parts(
        read_digits(&text[..4]),
        read_digits(&text[5..7]),
        read_digits(&text[8..10]),
    )
}

/// The text `YYYY-MM-DD` of the day with that number. It takes no memory.
pub fn print_day(days: i64) -> [u8; 10]
    requires { IsTrue (is_day_number days) }
    // It reads as that day again.
    ensures { spec.day_of result ≡ Some days }
{
    let date = civil::Date::from_unix_epoch_day(days).unwrap();
    print_parts(date.year.unsigned_abs(), date.month, date.day)
}

/// The text of a year, a month and a day of the month.
fn print_parts(year: u16, month: u8, day: u8) -> [u8; 10]
    requires year { year ≤ 9999 }
    requires month { month ≤ 99 }
    requires day { day ≤ 99 }
    ensures { result ≡ spec.parts_text year month day }
{
    let [first, second] = print_two((year / 100) as u8);
    let [third, fourth] = print_two((year % 100) as u8);
    let [tens, ones] = print_two(month);
    let [tens_of_days, days] = print_two(day);
    [
        first,
        second,
        third,
        fourth,
        b'-',
        tens,
        ones,
        b'-',
        tens_of_days,
        days,
    ]
}

fn print_two(number: u8) -> [u8; 2]
    requires { number ≤ 99 }
    ensures { result ≡ spec.two_digits number }
{
    [b'0' + number / 10, b'0' + number % 10]
}

fn day_of_parts(year: Option<u16>, month: Option<u16>, day: Option<u16>) -> Option<i64>
    requires month { IfSome month (λ n. n ≤ 9999) }
    requires day { IfSome day (λ n. n ≤ 9999) }
    ensures { result ≡ spec.day_of_parts year month day }
{
    match (year, month, day) {
        (Some(year), Some(month), Some(day)) => day_number(year, month, day),
        _ => None,
    }
}

/// The number that four digits or fewer are.
fn read_digits(text: &[u8]) -> Option<u16>
    requires { length text.now ≤ 4 }
    ensures value { result ≡ spec.digits_number text.now }
    ensures small { IfSome result (λ n. n < 10 ^ length text.now) }
{
    let mut number = 0;
    for byte in text {
        if !byte.is_ascii_digit() {
            return None;
        }
        number = number * 10 + u16::from(*byte - b'0');
    }
    Some(number)
}

/// How many days after 1970-01-01 a day is, where it is one from then to 9999-12-30.
fn day_number(year: u16, month: u16, day: u16) -> Option<i64>
    ensures { result ≡ spec.day_number year month day }
{
    if year < 1970 || year > 9999 || month > 12 || day > 31 {
        return None;
    }
    if year == 9999 && month == 12 && day == 31 {
        return None;
    }
    match Date::new(year as i16, month as i8, day as i8) {
        Ok(date) => Some(days_since_epoch(date)),
        Err(_) => None,
    }
}

fn days_since_epoch(date: Date) -> i64
    ensures { result ≡ epoch_day date }
{
    let epoch = Date::constant(1970, 1, 1);
    date.duration_since(epoch).as_hours() / 24
}

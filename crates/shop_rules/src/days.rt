//! Days and weekdays of moments, in UTC.
ghost use Rattle.std.specs.Prelude.{◌≡◌, ◌+◌, ◌*◌, unsigned_abs, pos};
ghost use Rattle.jiff.specs.Words.{civil_nanos, epoch_day, monday_zero};
ghost use Rattle.shop_rules.specs.Days as spec;

use jiff::Timestamp;
use jiff::civil::{Date, DateTime, Weekday};
use jiff::tz::Offset;

/// The day of a moment, as its number of days after 1970-01-01.
pub(crate) fn day_at(moment: i64) -> i64
    requires { spec.IsMoment moment }
    ensures { result ≡ spec.day_at moment }
{
    days_since_epoch(shown_at(moment).date())
}

/// The weekday of a moment, from 1 for Monday to 7 for Sunday.
pub(crate) fn weekday_at(moment: i64) -> i64
    requires { spec.IsMoment moment }
    ensures { result ≡ spec.weekday_at moment }
{
    monday_one(shown_at(moment).weekday())
}

/// What a clock in UTC shows at a moment.
fn shown_at(moment: i64) -> DateTime
    requires { spec.IsMoment moment }
    ensures { civil_nanos result ≡ pos (unsigned_abs moment * 1_000_000_000) }
{
    let instant = Timestamp::from_second(moment).unwrap();
    Offset::UTC.to_datetime(instant)
}

fn days_since_epoch(date: Date) -> i64
    ensures { result ≡ epoch_day date }
{
    let epoch = Date::constant(1970, 1, 1);
    date.duration_since(epoch).as_hours() / 24
}

fn monday_one(weekday: Weekday) -> i64
    ensures { result ≡ pos (monday_zero weekday + 1) }
{
    i64::from(weekday.to_monday_one_offset())
}

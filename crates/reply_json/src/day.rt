//! Days as texts `YYYY-MM-DD` (ISO 8601).
ghost use Rattle.std.specs.Prelude.{◌≡◌, IsTrue, Some};
ghost use Rattle.shop_requests.specs.Days.{day_of};
ghost use Rattle.shop_defs.specs.Days.{is_day_number};
ghost use Rattle.reply_json.specs.DayTexts as spec;

use arrayvec::ArrayString;
use jiff_core::civil::Date;
use jiff_fmt::temporal::DateTimePrinter;

/// The text of the day that is that many days after 1970-01-01. It takes no memory.
pub(crate) fn day_text(days: i64) -> ArrayString<13>
    requires { IsTrue (is_day_number days) }
    ensures text { result.bytes ≡ spec.day_text days }
    ensures reads { day_of result.bytes ≡ Some days }
{
    let date = Date::from_unix_epoch_day(days).unwrap();
    DateTimePrinter::new().date_text(date)
}

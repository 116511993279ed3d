//! Days by number.
ghost use Rattle.std.specs.Prelude.{◌≡◌};
ghost use Rattle.shop_defs.specs.Days as spec;

/// The number of the last day that a field may hold, 9999-12-30: how many days it is after
/// 1970-01-01.
pub const LAST_DAY: i64 = 2_932_895;

/// Whether a number is that of a day from 1970-01-01 to 9999-12-30.
pub fn is_day_number(days: i64) -> bool
    ensures { result ≡ spec.is_day_number days }
{
    0 <= days && days <= LAST_DAY
}

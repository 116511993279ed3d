//! What no clause says: known taxes, roundings and shares, and that a share succeeds where memory is
//! ample.

ghost use Rattle.std.specs.Prelude.{◌≡◌, pos, ◌≤ℤ◌};
ghost use Rattle.std.specs.List.{AllByRecursion};
ghost use Rattle.std.specs.declared.cmp.Ordering.TheVariants.{Less};
ghost use Rattle.std.specs.Bool.{OnTrue};
ghost use Rattle.std.specs.Ordering.{nat_cmp};
ghost use Rattle.keyed.specs.Keyed.{Ascends};

use crate::amounts::{is_amount, is_interval, round_to, tax};
use crate::priced::TaxState;
use crate::shares::{share, total_of};
use std::alloc::Global;
use std::test::Fail;

const MOST: i64 = 4_000_000_000_000_000_000;

/// Amounts with their rates, and the tax.
const TAXES: [(TaxState, i64, u32, i64); 30] = [
    (TaxState::Gross, 11_900, 1900, 1900),
    (TaxState::Gross, 1, 1900, 0),
    (TaxState::Gross, -5, 1900, -1),
    (TaxState::Gross, 0, 1900, 0),
    (TaxState::Gross, 100, 0, 0),
    (TaxState::Gross, 1, 10_000, 1),
    (TaxState::Gross, -1, 10_000, -1),
    (TaxState::Gross, 3, 10_000, 2),
    (TaxState::Gross, MOST, 10_000, 2_000_000_000_000_000_000),
    (TaxState::Gross, -MOST, 10_000, -2_000_000_000_000_000_000),
    (TaxState::Gross, MOST, 1, 399_960_003_999_600),
    (TaxState::Gross, MOST, 0, 0),
    (TaxState::Net, 5, 1000, 1),
    (TaxState::Net, -5, 1000, -1),
    (TaxState::Net, 15, 1000, 2),
    (TaxState::Net, 25, 1000, 3),
    (TaxState::Net, -25, 1000, -3),
    (TaxState::Net, 4, 1000, 0),
    (TaxState::Net, 450, 700, 32),
    (TaxState::Net, 899, 1900, 171),
    (TaxState::Net, 500, 700, 35),
    (TaxState::Net, -50, 700, -4),
    (TaxState::Net, 999, 1900, 190),
    (TaxState::Net, -100, 1900, -19),
    (TaxState::Net, MOST, 10_000, MOST),
    (TaxState::Net, -MOST, 10_000, -MOST),
    (TaxState::Net, MOST - 1, 9999, 3_999_599_999_999_999_999),
    (TaxState::Net, MOST, 0, 0),
    (TaxState::Free, MOST, 10_000, 0),
    (TaxState::Free, -5, 1900, 0),
];

/// Amounts, to what they are rounded, and what that gives.
const ROUNDINGS: [(i64, i64, i64); 30] = [
    (1552, 5, 1550),
    (1551, 5, 1550),
    (1553, 5, 1555),
    (-1552, 5, -1550),
    (-1553, 5, -1555),
    (25, 10, 30),
    (-25, 10, -30),
    (24, 10, 20),
    (-24, 10, -20),
    (35, 10, 40),
    (25, 50, 50),
    (-25, 50, -50),
    (24, 50, 0),
    (-24, 50, 0),
    (125, 50, 150),
    (50, 100, 100),
    (-50, 100, -100),
    (49, 100, 0),
    (250, 100, 300),
    (0, 100, 0),
    (7, 1, 7),
    (-7, 1, -7),
    (MOST, 1, MOST),
    (-MOST, 1, -MOST),
    (MOST, 100, MOST),
    (-MOST, 100, -MOST),
    (MOST - 50, 100, MOST),
    (50 - MOST, 100, -MOST),
    (MOST - 51, 100, MOST - 100),
    (MOST - 3, 5, MOST - 5),
];

/// Amounts, the rates with their bases, and the parts.
type Shared = (i64, &'static [(u32, i64)], &'static [(u32, i64)]);

const SHARES: [Shared; 19] = [
    (101, &[(700, 500), (1900, 500)], &[(700, 51), (1900, 50)]),
    (150, &[(700, 500), (1900, 999)], &[(700, 50), (1900, 100)]),
    (0, &[], &[]),
    (0, &[(700, 0), (1900, 0)], &[(700, 0), (1900, 0)]),
    (0, &[(700, 3), (1900, 4)], &[(700, 0), (1900, 0)]),
    (3, &[(700, 5)], &[(700, 3)]),
    (5, &[(700, 5)], &[(700, 5)]),
    (
        7,
        &[(0, 3), (700, 0), (1900, 4)],
        &[(0, 3), (700, 0), (1900, 4)],
    ),
    (
        1,
        &[(0, 1), (700, 1), (1900, 1)],
        &[(0, 1), (700, 0), (1900, 0)],
    ),
    (
        2,
        &[(0, 1), (700, 1), (1900, 1)],
        &[(0, 1), (700, 1), (1900, 0)],
    ),
    (1, &[(0, 1), (700, 2)], &[(0, 0), (700, 1)]),
    (1, &[(0, 0), (700, 3)], &[(0, 0), (700, 1)]),
    (
        10,
        &[(0, 14), (700, 3), (1900, 3)],
        &[(0, 7), (700, 2), (1900, 1)],
    ),
    (
        10,
        &[(0, 3), (700, 14), (1900, 4)],
        &[(0, 1), (700, 7), (1900, 2)],
    ),
    (i64::MAX, &[(0, i64::MAX)], &[(0, i64::MAX)]),
    (
        i64::MAX,
        &[(0, i64::MAX), (10_000, i64::MAX)],
        &[
            (0, 4_611_686_018_427_387_904),
            (10_000, 4_611_686_018_427_387_903),
        ],
    ),
    (
        1,
        &[(0, i64::MAX), (10_000, i64::MAX)],
        &[(0, 1), (10_000, 0)],
    ),
    (
        MOST,
        &[(0, MOST), (5, 1), (u32::MAX, MOST)],
        &[
            (0, 2_000_000_000_000_000_000),
            (5, 0),
            (u32::MAX, 2_000_000_000_000_000_000),
        ],
    ),
    (
        i64::MAX,
        &[(0, i64::MAX), (5, i64::MAX), (10_000, i64::MAX)],
        &[
            (0, 3_074_457_345_618_258_603),
            (5, 3_074_457_345_618_258_602),
            (10_000, 3_074_457_345_618_258_602),
        ],
    ),
];

fn is_taxed(state: TaxState, amount: i64, rate: u32, want: i64) -> bool {
    if !is_amount(amount) {
        return false;
    }
    if rate > 10_000 {
        return false;
    }
    tax(state, amount, rate) == want
}

fn is_rounded(amount: i64, interval: i64, want: i64) -> bool {
    if !is_amount(amount) {
        return false;
    }
    if !is_interval(interval) {
        return false;
    }
    round_to(amount, interval) == want
}

/// Whether each rate is below those after it.
fn do_rates_ascend(bases: &[(u32, i64)]) -> bool
    ensures { OnTrue result (Ascends nat_cmp (λ base. base.0) bases.now) }
{
    match bases {
        [] => true,
        [first, rest @ ..] => is_below(first.0, rest) && do_rates_ascend(rest),
    }
}

/// Whether a rate is below all others.
fn is_below(rate: u32, bases: &[(u32, i64)]) -> bool
    ensures { OnTrue result (AllByRecursion (λ base. nat_cmp rate base.0 ≡ Less) bases.now) }
{
    match bases {
        [] => true,
        [first, rest @ ..] => rate < first.0 && is_below(rate, rest),
    }
}

/// Whether no base is negative.
fn are_bases(bases: &[(u32, i64)]) -> bool
    ensures { OnTrue result (AllByRecursion (λ base. pos 0 ≤ℤ base.1) bases.now) }
{
    match bases {
        [] => true,
        [first, rest @ ..] => 0 <= first.1 && are_bases(rest),
    }
}

fn is_shared(alloc: Global, amount: i64, bases: &[(u32, i64)], want: &[(u32, i64)]) -> bool {
    if !do_rates_ascend(bases) {
        return false;
    }
    if !are_bases(bases) {
        return false;
    }
    if 0 <= amount && u128::from(amount.unsigned_abs()) <= total_of(bases) {
        return match share(alloc, amount, bases) {
            Ok(parts) => parts.as_slice() == want,
            Err(_) => false,
        };
    }
    false
}

#[test]
fn taxes(rt: HostRuntime) {
    for (state, amount, rate, want) in TAXES {
        assert!(rt;
            is_taxed(state, amount, rate, want),
            "of {amount} at {rate}"
        );
    }
}

#[test]
fn roundings(rt: HostRuntime) {
    for (amount, interval, want) in ROUNDINGS {
        assert!(rt;
            is_rounded(amount, interval, want),
            "of {amount} to {interval}"
        );
    }
    for interval in [0, 2, 25, 101, 1000, -1, -5] {
        assert!(rt; !is_interval(interval), "to {interval}");
    }
    for amount in [MOST + 1, -MOST - 1, i64::MAX, i64::MIN] {
        assert!(rt; !is_amount(amount), "of {amount}");
    }
}

/// Of 100 rates with the same base, the 50 lowest get the 50 units.
#[test]
fn shares(rt: HostRuntime) -> Result<(), Fail> {
    for (amount, bases, want) in SHARES {
        assert!(rt; is_shared(rt.alloc(), amount, bases, want), "of {amount}");
    }
    let mut bases = Vec::new(rt.alloc());
    let mut want = Vec::new(rt.alloc());
    for rate in 1..101u32 {
        bases.push((rate, 10_000_000_000_000_000i64))?;
        want.push((rate, i64::from(rate <= 50)))?;
    }
    assert!(rt; is_shared(rt.alloc(), 50, &bases, &want), "of 50 among 100");
    Ok(())
}

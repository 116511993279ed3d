//! An amount shared among tax rates.
ghost use Rattle.std.specs.Prelude.{◌≡◌, ◌≤◌, ◌<◌, ◌^◌, ◌+◌, ◌++◌, ◌∷◌, [], pos, ◌≤ℤ◌, map, sum_by, unsigned_abs, All, IfOk, OnErr, length};
ghost use Rattle.std.specs.Vec.{vec_len, vec_capacity};
ghost use Rattle.std.specs.List.{AllZip};
ghost use Rattle.std.specs.Ordering.{nat_cmp};
ghost use Rattle.keyed.specs.Keyed.{Ascends};
ghost use Rattle.cart_price.specs.LargestRemainder as spec;

use shop_defs::{List, NoMemory};
use std::alloc::Global;

/// What a rate has a claim to: of its exact share the whole units, and the remainder of the division
/// that gives it.
#[derive(Drop, Clone, Copy)]
struct Claim {
    rate: u32,
    floor: u64,
    remainder: u128,
}

impl Claim {
    /// The claim of one rate.
    fn new(amount: u64, whole: u128, base: (u32, i64)) -> Claim
        requires { amount ≤ whole }
        ensures { result ≡ spec.claim amount whole base }
    {
        let (rate, base) = base;
        if whole == 0 {
            return Claim {
                rate,
                floor: 0,
                remainder: 0,
            };
        }
        let product = u128::from(amount) * u128::from(base.unsigned_abs());
        Claim {
            rate,
            floor: (product / whole) as u64,
            remainder: product % whole,
        }
    }

    /// Whether this claim gets a unit before the other one: its remainder is larger, or as large and
    /// its rate lower.
    fn comes_first(&self, other: &Claim) -> bool
        ensures { result ≡ spec.comes_first self.now other.now }
    {
        self.remainder > other.remainder
            || (self.remainder == other.remainder && self.rate < other.rate)
    }
}

/// An amount shared among tax rates in proportion to their bases, by the largest remainder. All
/// numbers are minor units.
///
/// Each rate, in hundredths of a percent, stands beside its base. Rates ascend, bases are at least 0,
/// and the amount is from 0 to their sum. Each rate gets the whole units of its exact share, and the
/// units that are left go one each to the largest remainders of that division, of equal ones to the
/// lower rate. If all bases are 0, all parts are. Want of memory is the only error.
pub fn share(alloc: Global, amount: i64, bases: &[(u32, i64)]) -> Result<List<(u32, i64)>, NoMemory>
    requires ascend { Ascends nat_cmp (λ base. base.0) bases.now }
    requires bases { All (λ base. pos 0 ≤ℤ base.1) bases.now }
    requires low { pos 0 ≤ℤ amount }
    requires high { amount ≤ℤ pos (spec.total bases.now) }
    ensures value { IfOk result (λ parts. parts ≡ spec.shares (unsigned_abs amount) bases.now) }
    // The parts sum to the amount.
    ensures sum { IfOk result (λ parts. pos (spec.total parts) ≡ amount) }
    // Each part stands under its rate, and is between 0 and its base.
    ensures parts { IfOk result (λ parts. AllZip spec.IsPartOf parts bases.now) }
    // Each part is the whole units of its exact share, or one more.
    ensures floors { IfOk result (λ parts. AllZip (spec.IsFloorOrNext (unsigned_abs amount) (spec.total bases.now)) parts bases.now) }
    // No other sharing by whole units has a smaller largest deviation from the exact shares.
    ensures fairest { IfOk result (λ parts. spec.IsFairest (unsigned_abs amount) bases.now (map (λ part. unsigned_abs part.1) parts)) }
    // Without rates no memory is wanted.
    ensures wanted { OnErr result (0 < length bases.now) }
{
    let room = Room::of(alloc, bases.len())?;
    Ok(List::from_vec(shares_in(room, amount.unsigned_abs(), bases)))
}

/// Room for the claims and the parts of so many rates. Asking for it is all that can be refused.
#[derive(Drop)]
struct Room {
    claims: Vec<Claim>,
    parts: Vec<(u32, i64)>,
}

impl Room {
    fn of(alloc: Global, rates: usize) -> Result<Room, NoMemory>
        ensures claims { IfOk result (λ room. spec.IsRoom rates room.claims) }
        ensures parts { IfOk result (λ room. spec.IsRoom rates room.parts) }
        ensures wanted { OnErr result (0 < rates) }
    {
        Ok(Room {
            claims: Vec::with_capacity(alloc, rates)?,
            parts: Vec::with_capacity(alloc, rates)?,
        })
    }
}

/// The amount shared among the rates, where there is room.
fn shares_in(room: Room, amount: u64, bases: &[(u32, i64)]) -> Vec<(u32, i64)>
    requires claims { spec.IsRoom (length bases.now) room.claims }
    requires parts { spec.IsRoom (length bases.now) room.parts }
    requires ascend { Ascends nat_cmp (λ base. base.0) bases.now }
    requires most { amount ≤ spec.total bases.now }
    requires fits { amount < 2 ^ 63 }
    ensures { result.items ≡ spec.shares amount bases.now }
{
    let Room { claims, parts } = room;
    let claims = claims_in(claims, amount, bases);
    let left = left_of(amount, claims.as_slice());
    parts_in(parts, claims.as_slice(), left)
}

fn push_in_room<T: Drop>(items: &mut Vec<T>, item: T)
    requires { vec_len items.old < vec_capacity items.old }
    ensures items { items.new.items ≡ items.old.items ++ item ∷ [] }
    ensures len { vec_len items.new ≡ vec_len items.old + 1 }
    ensures capacity { vec_capacity items.old ≤ vec_capacity items.new }
{
    match items.push(item) {
        Ok(()) => {}
        Err(_) => unreachable!(),
    }
}

/// The sum of the bases.
pub(crate) fn total_of(bases: &[(u32, i64)]) -> u128
    ensures { result ≡ spec.total bases.now }
{
    let mut total = 0;
    for base in bases {
        total += u128::from(base.1.unsigned_abs());
    }
    total
}

/// The claims of all rates, in their order.
fn claims_in(mut claims: Vec<Claim>, amount: u64, bases: &[(u32, i64)]) -> Vec<Claim>
    requires room { spec.IsRoom (length bases.now) claims }
    requires most { amount ≤ spec.total bases.now }
    ensures { result.items ≡ spec.claims_of amount bases.now }
{
    let whole = total_of(bases);
    for base in bases {
        push_in_room(&mut claims, Claim::new(amount, whole, *base));
    }
    claims
}

/// The units that are left once each claim has its whole ones.
fn left_of(amount: u64, claims: &[Claim]) -> u64
    requires { sum_by (λ at. at.floor) claims.now ≤ amount }
    ensures { result ≡ spec.left_of amount claims.now }
{
    amount - claims.iter().map(|claim| claim.floor).sum::<u64>()
}

/// How many claims come before one.
fn rank(claims: &[Claim], at: &Claim) -> usize
    ensures { result ≡ spec.rank claims.now at.now }
{
    claims.iter().filter(|other| other.comes_first(at)).count()
}

/// The part of one claim.
fn part(claims: &[Claim], left: u64, at: &Claim) -> i64
    requires { spec.part claims.now left at.now < 2 ^ 63 }
    ensures { result ≡ pos (spec.part claims.now left at.now) }
{
    if (rank(claims, at) as u64) < left {
        (at.floor + 1) as i64
    } else {
        at.floor as i64
    }
}

/// The parts of all claims, in their order.
fn parts_in(mut parts: Vec<(u32, i64)>, claims: &[Claim], left: u64) -> Vec<(u32, i64)>
    requires room { spec.IsRoom (length claims.now) parts }
    requires fit { All (λ at. spec.part claims.now left at < 2 ^ 63) claims.now }
    ensures { result.items ≡ map (λ at. (at.rate, pos (spec.part claims.now left at))) claims.now }
{
    for at in claims {
        push_in_room(&mut parts, (at.rate, part(claims, left, at)));
    }
    parts
}

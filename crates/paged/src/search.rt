//! Binary searches in pairs of a key and something else, in the order of their keys.
ghost use Rattle.std.specs.Prelude.{◌≡◌, ◌≤◌, ◌+◌, ℕ, Some, None, get_or, false, length, take, drop, IfOk, IfErr};
ghost use Rattle.std.specs.declared.cmp.Ordering.TheVariants.{Less};
ghost use Rattle.std.specs.Ordering.{is_lt, is_gt};
ghost use Rattle.std.specs.List.{AllByRecursion};
ghost use Rattle.keyed.specs.Keyed.{Ascends};
ghost use Rattle.keyed.proofs.Places.{IsAt, IsGap};
ghost use Rattle.paged.specs.Pairs.{key_of, front, back, part_at, first_above, first_of};
ghost use Rattle.paged.specs.Walk.{from, parts_from};

/// Where the key stands, or else where it would stand.
pub(crate) fn search<K: Ord + Copy + Drop, C>(pairs: &[(K, C)], key: &K) -> Result<usize, usize>
    requires { Ascends K.cmp key_of pairs.now }
    ensures found { IfOk result (IsAt K.cmp key_of pairs.now key.now) }
    ensures absent { IfErr result (IsGap K.cmp key_of pairs.now key.now) }
{
    pairs.binary_search_by_key(key, |pair| pair.0)
}

/// The pairs with lesser keys, and those with greater ones.
pub(crate) fn around<'a, K: Ord + Copy + Drop, C>(
    pairs: &'a [(K, C)],
    key: &K,
) -> (&'a [(K, C)], &'a [(K, C)])
    requires { Ascends K.cmp key_of pairs.now }
    ensures front { result.0.now ≡ front K.cmp pairs.entry.now key.now }
    ensures back { result.1.now ≡ back K.cmp pairs.entry.now key.now }
{
    match search(pairs, key) {
        Ok(at) => (&pairs[..at], &pairs[at + 1..]),
        Err(at) => (&pairs[..at], &pairs[at..]),
    }
}

/// How many pairs have keys below this one: those in front.
pub(crate) fn count_below<K: Ord + Copy + Drop, C>(pairs: &[(K, C)], key: &K) -> usize
    requires { Ascends K.cmp key_of pairs.now }
    ensures bound { result ≤ length pairs.now }
    ensures below { AllByRecursion (λ c. K.cmp c.0 key.now ≡ Less) (take result pairs.now) }
    ensures others { AllByRecursion (λ c. is_lt (K.cmp c.0 key.now) ≡ false) (drop result pairs.now) }
    ensures from { from K.cmp pairs.now key.now ≡ drop result pairs.now }
{
    match search(pairs, key) {
        Ok(at) => at,
        Err(at) => at,
    }
}

/// How many pairs have this key or keys below it.
pub(crate) fn count_up_to<K: Ord + Copy + Drop, C>(pairs: &[(K, C)], key: &K) -> usize
    requires { Ascends K.cmp key_of pairs.now }
    ensures bound { result ≤ length pairs.now }
    ensures above { first_above K.cmp pairs.now key.now ≡ first_of (drop result pairs.now) }
    ensures none { result ≡ 0 → part_at K.cmp pairs.now key.now ≡ None }
    ensures part { (n : ℕ) (d : K × C) → result ≡ n + 1 → part_at K.cmp pairs.now key.now ≡ Some (get_or pairs.now n d).1 }
    ensures up_to { (n : ℕ) (d : K × C) → result ≡ n + 1 → is_gt (K.cmp (get_or pairs.now n d).0 key.now) ≡ false }
    ensures whole { result ≡ 0 → parts_from K.cmp pairs.now key.now ≡ pairs.now }
    ensures from { (n : ℕ) → result ≡ n + 1 → parts_from K.cmp pairs.now key.now ≡ drop n pairs.now }
{
    match search(pairs, key) {
        Ok(at) => at + 1,
        Err(at) => at,
    }
}

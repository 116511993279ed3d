//! Whether the conditions of a rule hold.
ghost use Rattle.std.specs.Prelude.{◌≡◌, List as ListOf, Bool, ℤ, not, map, length, None, ◌-◌};
ghost use Rattle.std.specs.List.Sorted.{IsPermutation};
ghost use Rattle.shop_defs.specs.declared.row.Row.{Row as RowOf};
ghost use Rattle.trees.specs.Nodes.{HaveOwnIds, below};
ghost use Rattle.trees.specs.Holding.{IsMeaning, IsTurned, is_all_yes, holds};
ghost use Rattle.shop_rules.specs.declared.facts.CartFacts.{CartFacts as FactsOf};
ghost use Rattle.shop_rules.specs.Days.{IsMoment};
ghost use Rattle.shop_rules.specs.Conditions as spec;

use crate::facts::CartFacts;
use crate::leaves::is_met;
use shop_defs::Row;
use trees::{Test, Tree};

/// A cart at a moment, as leaves ask for it.
#[derive(Drop)]
struct Asked<'a> {
    facts: &'a CartFacts,
    moment: i64,
    ghost in_range: { IsMoment moment },
}

impl Test for Asked<'_> {
    ghost says = { λ a. spec.is_met a.facts.now a.moment };

    fn is_met(&self, leaf: &Row) -> bool {
        is_met(self.facts, self.moment, leaf)
    }
}

/// Whether the conditions of a rule hold of the facts at that moment. It takes no memory.
pub fn matches(tree: &Tree, facts: &CartFacts, moment: i64) -> bool
    requires { IsMoment moment }
    ensures value { result ≡ spec.conditions_hold tree.now facts.now moment }
    // Only facts that a leaf looks at can change the answer.
    ensures facts { (other : FactsOf) (later : ℤ) → spec.AgreeOn tree.now facts.now moment other later → result ≡ spec.conditions_hold tree.now other later }
    // A `not` turns what is below it.
    ensures turned { (root turned : RowOf) → IsTurned tree.now root turned → result ≡ not (holds (spec.is_met facts.now moment) tree.now (length tree.now - 1) turned) }
    // The order of the conditions doesn't matter.
    ensures order { (others : ListOf RowOf) → IsPermutation tree.now others → result ≡ spec.conditions_hold others facts.now moment }
    // Each condition means what its kind and those just below it say.
    ensures words { HaveOwnIds tree.now → (meaning : RowOf → Bool) → IsMeaning (spec.is_met facts.now moment) tree.now meaning → result ≡ is_all_yes (map meaning (below tree.now None)) }
{
    tree.holds(&Asked { facts, moment })
}

//! Trees.
ghost use Rattle.std.specs.Prelude.{◌≡◌};
ghost use Rattle.trees.specs.Holding as spec;

use crate::answers::is_all_yes;
use crate::test::Test;
use crate::walk::answers_below;
use shop_defs::{List, Row};
use std::marker::Model;

/// A tree of conditions. Contracts see the list of its nodes, which are rows.
#[derive(Drop)]
pub struct Tree {
    nodes: List<Row>,
}

impl Model for Tree {
    ghost use Rattle.std.specs.Prelude.{List};
    ghost use Rattle.shop_defs.specs.declared.row.Row.{Row};

    ghost Value = { List Row };

    ghost view = { λ t. t.nodes };
}

impl Tree {
    ghost use Rattle.std.specs.Prelude.{List as ListOf, Bool, not, map, length, None, ◌-◌};
    ghost use Rattle.std.specs.List.Sorted.{IsPermutation};
    ghost use Rattle.shop_defs.specs.declared.row.Row.{Row};
    ghost use Rattle.trees.specs.Nodes.{HaveOwnIds, below};

    /// The tree of these nodes. It takes no memory.
    pub fn from_nodes(nodes: List<Row>) -> Tree
        ensures { result ≡ nodes }
    {
        Tree { nodes }
    }

    /// The nodes.
    pub fn as_slice(&self) -> &[Row]
        ensures { result.now ≡ self.now }
    {
        self.nodes.as_slice()
    }

    /// Whether the tree holds by a test of its leaves: there is a root, and each root holds. It takes
    /// no memory.
    pub fn holds<T: Test>(&self, test: &T) -> bool
        ensures value { result ≡ spec.tree_holds (T.says test.now) self.now }
        // No count of levels stands in this: each node means what its kind and those just below it say.
        ensures words { HaveOwnIds self.now → (meaning : Row → Bool) → spec.IsMeaning (T.says test.now) self.now meaning → result ≡ spec.is_all_yes (map meaning (below self.now None)) }
        // A `not` turns what is below it.
        ensures turned { (root turned : Row) → spec.IsTurned self.now root turned → result ≡ not (spec.holds (T.says test.now) self.now (length self.now - 1) turned) }
        // The order of the nodes doesn't matter.
        ensures order { (others : ListOf Row) → IsPermutation self.now others → result ≡ spec.tree_holds (T.says test.now) others }
        // Only what the leaves are asked matters.
        ensures leaves { (other : Row → Bool) → spec.AgreeOnLeaves (T.says test.now) other self.now → result ≡ spec.tree_holds other self.now }
    {
        let nodes = self.as_slice();
        is_all_yes(answers_below(nodes, test, nodes.len(), None))
    }
}

//! From a node down to its leaves.
ghost use Rattle.std.specs.Prelude.{◌≡◌};
ghost use Rattle.trees.specs.Holding as spec;
ghost use Rattle.trees.specs.Counts.{counts};

use crate::answers::{Answers, joined};
use crate::node::{is_below, join_of};
use crate::test::Test;
use shop_defs::Row;

/// Whether a node holds, by those below it on so many levels, itself the first.
#[cycle(down)]
#[tactic(auto, unfolding(crate::specs::Holding::holds))]
fn holds<T: Test>(nodes: &[Row], test: &T, levels: usize, node: &Row) -> bool
    ensures { result ≡ spec.holds (T.says test.now) nodes.now levels node.now }
{
    if levels == 0 {
        return false;
    }
    match join_of(node) {
        Some(join) => joined(
            join,
            answers_below(nodes, test, levels - 1, Some(node.key.id)),
        ),
        None => test.is_met(node),
    }
}

/// How many of the nodes just below one hold.
#[cycle(down)]
pub(crate) fn answers_below<T: Test>(
    nodes: &[Row],
    test: &T,
    levels: usize,
    above: Option<u128>,
) -> Answers
    ensures { result ≡ counts (spec.answers (T.says test.now) nodes.now levels above) }
{
    let mut answers = Answers::none();
    let mut rest = nodes;
    while let [node, more @ ..] = rest {
        if is_below(node, above) {
            answers = answers.with(holds(nodes, test, levels, node));
        }
        rest = more;
    }
    answers
}

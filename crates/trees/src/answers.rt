//! How many nodes hold.
ghost use Rattle.std.specs.Prelude.{◌≡◌, ◌+◌, ◌<◌, if◌then◌else◌, not};
ghost use Rattle.trees.specs.Counts as spec;

use crate::node::Join;

/// How many of some nodes hold, and how many don't.
#[derive(Drop, Clone, Copy)]
pub(crate) struct Answers {
    /// How many hold.
    pub(crate) yes: usize,
    /// How many don't.
    pub(crate) no: usize,
}

impl Answers {
    /// Of no nodes.
    pub(crate) fn none() -> Answers
        ensures { result ≡ record { yes = 0; no = 0 } }
    {
        Answers { yes: 0, no: 0 }
    }

    /// With one node more.
    pub(crate) fn with(self, answer: bool) -> Answers
        requires { self.yes + self.no < usize.MAX }
        ensures { result ≡ spec.with_answer self answer }
    {
        if answer {
            Answers {
                yes: self.yes + 1,
                no: self.no,
            }
        } else {
            Answers {
                yes: self.yes,
                no: self.no + 1,
            }
        }
    }
}

/// Whether some hold, and none doesn't.
pub(crate) fn is_all_yes(answers: Answers) -> bool
    ensures { result ≡ spec.all_yes_by answers }
{
    answers.yes > 0 && answers.no == 0
}

/// Whether a node that joins them holds.
pub(crate) fn joined(join: Join, answers: Answers) -> bool
    ensures { result ≡ spec.joined_by join answers }
{
    match join {
        Join::And => answers.no == 0,
        Join::Or => answers.yes > 0,
        Join::Not => answers.yes == 0 && answers.no == 1,
    }
}

//! What is answered of questions about all rows.
ghost use Rattle.std.specs.Prelude.{◌≡◌, IfOk, Ok, Err};
ghost use Rattle.idx_copy.specs.Answers.{said};
ghost use Rattle.shop_core.specs.Indexed.{Tells, said_reply};

use crate::answers::{Reply, Told};
use idx_copy::Answer;
use shop_defs::{Broken, List, NoMemory, Refused};
use shop_meanings::Standing;
use std::alloc::Global;

/// The answer to a question that the rows after so many entries refuse.
pub fn refused_at(front: u64, broken: Broken) -> Reply
    ensures { result ≡ said_reply front (Err broken) }
{
    match broken {
        Broken::NoSuchRow { key } => Reply::Missing { front, key },
        broken => Reply::Refused(Refused { op: 0, broken }),
    }
}

/// The answer to a question that the rows after so many entries answer so. Ids that are lent are copied.
pub(crate) fn told(alloc: Global, front: u64, answer: Answer<'_>) -> Reply
    ensures { Tells result (said_reply front (Ok (said answer.entry))) }
{
    match answer {
        Answer::CategoryTree {
            path,
            level,
            children,
        } => match copy_ids(alloc, path) {
            Ok(path) => Reply::Told {
                front,
                told: Told::Tree(Standing {
                    path,
                    level,
                    children,
                }),
            },
            Err(_) => Reply::NoMemory,
        },
        Answer::StreamMembers { members } => match copy_ids(alloc, members) {
            Ok(members) => Reply::Told {
                front,
                told: Told::Members(members),
            },
            Err(_) => Reply::NoMemory,
        },
        Answer::ListingPrice(price) => Reply::Told {
            front,
            told: Told::Price(price),
        },
        Answer::Listing(page) => Reply::Told {
            front,
            told: Told::Page(page),
        },
    }
}

fn copy_ids(alloc: Global, ids: &[u128]) -> Result<List<u128>, NoMemory>
    ensures { IfOk result (λ copy. copy ≡ ids.now) }
{
    Ok(List::from_vec(Vec::from_slice(alloc, ids)?))
}

//! What a shop is asked, and what it answers.
ghost use Rattle.std.specs.Prelude.{◌≡◌};
ghost use Rattle.shop_core.specs.declared.answers.CommitFault.TheVariants as committing;
ghost use Rattle.shop_core.specs.Requests as spec;

use cart_loop::CartRefused;
use cart_price::Settled;
use idx_copy::AskFault;
use product_meanings::{ListingPage, ListingPrice};
use shop_chain::Shown;
use shop_check::Rule;
use shop_defs::{Broken, Key, List, NoMemory, Refused, Row, Txt, Value};
use shop_meanings::Standing;
use shop_outside::Moment;
use shop_requests::{Command, LineFault, Query, RowRead};

/// A command is done.
#[derive(Drop, Clone, Copy)]
pub struct Done {
    /// The number of its entry: entries are counted on from the number that the keeper held.
    pub front: u64,
    /// What the command gives: of a batch, how many operations it has.
    pub value: i64,
}

/// A command that was accepted, as the history has it.
#[derive(Drop)]
pub struct Entry {
    /// The number of the caller that asked for it.
    pub caller: u32,
    /// What was asked for.
    pub command: Command,
    /// When it was asked for.
    pub moment: Moment,
}

/// Why a command is not done.
#[derive(Drop)]
pub enum CommitFault {
    /// It breaks a rule.
    Refused(Refused),
    /// The keeper failed to keep what it changes.
    StoreFailed,
    /// Memory was refused.
    NoMemory,
}

impl From<NoMemory> for CommitFault {
    ghost from_gives = { λ _ fault. fault ≡ committing.NoMemory };

    fn from(_: NoMemory) -> CommitFault {
        CommitFault::NoMemory
    }
}

/// Why no shop was opened.
#[derive(Drop)]
pub enum OpenFault {
    /// What the keeper holds is no shop.
    Damaged {
        /// The key of the first row that breaks a rule.
        key: Key,
        /// The first rule that it breaks.
        rule: Rule,
    },
    /// The keeper failed to give what it holds.
    StoreFault,
    /// Memory was refused.
    NoMemory,
}

/// A row, and what is shown beside its own fields.
#[derive(Drop)]
pub struct RowReply {
    /// The row.
    pub row: Row,
    /// The names of what is shown, ascending by their bytes, each with its value: `None` where there
    /// is none. It is empty where the row is neither a product's nor a category's, and in a list of
    /// rows.
    pub shown: List<(Txt, Option<Value>)>,
}

/// A row, and what is shown beside its own fields, lent by the rows.
#[derive(Drop)]
pub struct RowSeen<'a> {
    /// The row.
    pub row: &'a Row,
    /// What is shown beside it: nothing where it is neither a product's nor a category's.
    pub shown: Shown<'a>,
}

/// What a shop is asked.
#[derive(Drop)]
pub enum Request {
    /// To carry out a command.
    Write(Command),
    /// To show a row.
    Row(RowRead),
    /// To list the first live rows of an entity above a place.
    RowList {
        /// The name that is given for the entity.
        entity: Txt,
        /// The id of the place. Here 0 is allowed, which is below all ids.
        id: u128,
        /// The second part of the place. 0 is below all of them.
        second: u128,
    },
    /// To answer a question about all rows.
    Indexed {
        /// The question.
        query: Query,
        /// How many accepted entries the answer has to have seen at least.
        min_front: u64,
    },
    /// To price a cart.
    Cart {
        /// The id of the cart.
        cart: u128,
    },
    /// To say how many entries are accepted and published.
    Front,
}

/// What a question about all rows is answered.
#[derive(Drop)]
pub enum Told {
    /// Where a category stands among the others.
    Tree(Standing),
    /// The ids of the products that are members of a stream, ascending.
    Members(List<u128>),
    /// At which price a product is listed.
    Price(ListingPrice),
    /// A page of what a category lists.
    Page(ListingPage),
}

/// What a shop answers.
#[derive(Drop)]
pub enum Reply {
    /// The command is done.
    Done(Done),
    /// The row that is shown.
    Row(RowReply),
    /// The rows that are listed, in the order of their keys.
    RowList(List<RowReply>),
    /// The cart that is settled.
    Cart {
        /// So many entries are accepted.
        front: u64,
        /// The cart as it is settled by the rows after these.
        settled: Settled,
    },
    /// What a question about all rows is answered.
    Told {
        /// The answer is that of the rows after so many entries.
        front: u64,
        /// The answer.
        told: Told,
    },
    /// No row has the key that a question about all rows names.
    Missing {
        /// The answer is that of the rows after so many entries.
        front: u64,
        /// The key.
        key: Key,
    },
    /// How many entries there are.
    Front {
        /// So many are accepted.
        accepted: u64,
        /// So many of them the published copy has taken in.
        published: u64,
    },
    /// A question asks for an answer over more entries than there are.
    FrontUnknown {
        /// So many entries the answer has to have seen at least.
        asked: u64,
        /// So many are accepted.
        have: u64,
    },
    /// The request breaks a rule, and nothing is changed.
    Refused(Refused),
    /// What came isn't a request that is answered. No call of this crate answers it.
    Line(LineFault),
    /// The keeper failed to keep what the command changes, and nothing is changed.
    StoreFailed,
    /// Memory was refused, and nothing is changed.
    NoMemory,
}

/// The answer to a read that shows nothing.
pub(crate) fn not_shown(fault: AskFault) -> Reply
    ensures { result ≡ spec.not_shown fault }
{
    match fault {
        AskFault::Refused(broken) => Reply::Refused(Refused { op: 0, broken }),
        AskFault::NoMemory => Reply::NoMemory,
    }
}

/// The answer to a read that breaks that rule.
fn broken_by(broken: Broken) -> Reply
    ensures { result ≡ spec.broken_by broken }
{
    Reply::Refused(Refused { op: 0, broken })
}

/// The answer to a cart that isn't settled.
pub(crate) fn not_settled(cart: u128, fault: CartRefused) -> Reply
    ensures { result ≡ spec.not_settled cart fault }
{
    match fault {
        CartRefused::NoSuchCart => broken_by(Broken::NoSuchCart { id: cart }),
        CartRefused::Unstable => broken_by(Broken::Unstable { id: cart }),
        CartRefused::NoMemory => Reply::NoMemory,
    }
}

/// The answer to a commit.
pub(crate) fn written(answer: Result<Done, CommitFault>) -> Reply
    ensures { result ≡ spec.written answer }
{
    match answer {
        Ok(done) => Reply::Done(done),
        Err(CommitFault::Refused(refused)) => Reply::Refused(refused),
        Err(CommitFault::StoreFailed) => Reply::StoreFailed,
        Err(CommitFault::NoMemory) => Reply::NoMemory,
    }
}

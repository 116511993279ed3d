//! The rule that a request breaks.
use crate::copied::{Copied, NoMemory};
use crate::entity::Entity;
use crate::key::Key;
use crate::txt::Txt;
use sqlite_items::Boxed;
use std::alloc::Global;

/// The rule that a request breaks, with what it is broken by.
///
/// The rules are tried in this order, but that placing an order has an order of its own. Where one rule is broken at several places, the least is named:
/// field names by their bytes, keys in the order of keys.
#[derive(Drop)]
pub enum Broken {
    /// No entity has the name, or the operation is on an entity that operations may not write.
    UnknownEntity,
    /// The entity has no field of that name.
    UnknownField {
        /// The name that is given.
        field: Txt,
    },
    /// The value is not of the field's kind; or a second part is given for a key of one part, or is
    /// missing for a key of two.
    WrongKind {
        /// The name of the field, or `second`.
        field: Txt,
    },
    /// A value of the right kind is outside the field's range or choices; or an adjustment by more
    /// than 0 would leave more stock than there may be.
    OutOfRange {
        /// The name of the field; of an adjustment `available` or `amount`.
        field: Txt,
        /// The number that is outside; of a text, how many bytes it has.
        value: i128,
    },
    /// A draft is wanted of a row of another entity than product and category, or an operation in a
    /// draft is on an entity without versions.
    NotVersioned {
        /// That entity.
        entity: Entity,
    },
    /// The version is not the live one, and there is no such draft.
    NoSuchVersion {
        /// The version that is named.
        version: u128,
    },
    /// A draft with that version is there already.
    VersionExists {
        /// The version that is named.
        version: u128,
    },
    /// An operation in a draft would leave, change or remove a row that is not part of what the draft
    /// edits.
    OutsideDraft {
        /// The key of that row.
        key: Key,
    },
    /// The row that is read, deleted, drafted, adjusted or taken to another state is not there.
    NoSuchRow {
        /// The key that has no row.
        key: Key,
    },
    /// A field that stays as the row is inserted is given another value.
    FixedField {
        /// The name of the field.
        field: Txt,
    },
    /// A field that must have a value would be empty.
    MissingRequired {
        /// The name of the field.
        field: Txt,
    },
    /// A given reference names no row, or a parent node of another tree.
    MissingReference {
        /// The name of the field, or the part of the key: `id` or `second`.
        field: Txt,
        /// The id that is given.
        id: u128,
    },
    /// Another row has the same unique fields, none of them empty.
    Duplicate {
        /// The key of that other row.
        key: Key,
    },
    /// A parent is given, and the walk up from the written row comes back to it.
    ParentCycle {
        /// The id of the written row.
        id: u128,
    },
    /// A parent is given, and the written row or one below it stands lower than its tree may reach.
    ParentTooDeep {
        /// The id of the written row.
        id: u128,
    },
    /// A delete would remove a row that a row which stays holds on to.
    InUse {
        /// The key of the row that stays.
        by: Key,
    },
    /// There would be more rows than a limit allows, of an entity or below one owner.
    TooMany {
        /// The entity of the rows.
        entity: Entity,
        /// How many rows are allowed.
        limit: u32,
    },
    /// A merge is refused: this operation of a draft breaks a rule on the live rows.
    MergeBroken {
        /// The number of the draft's change that the operation belongs to, from 1 on.
        commit: u32,
        /// The number of the operation in that change, from 1 on.
        op: u32,
        /// The rule that it breaks.
        inner: Boxed<Broken>,
    },
    /// An order with that id is there already.
    OrderExists {
        /// The id of the order.
        id: u128,
    },
    /// The cart is not there.
    NoSuchCart {
        /// The id of the cart.
        id: u128,
    },
    /// The cart that is to be ordered has no line.
    CartEmpty {
        /// The id of the cart.
        id: u128,
    },
    /// The cart does not settle: seven rounds of rules, discounts and delivery give no two equal
    /// states in a row.
    Unstable {
        /// The id of the cart.
        id: u128,
    },
    /// Something keeps the settled cart from being ordered.
    Blocked {
        /// The id of the first such line.
        line: u128,
        /// What keeps it.
        cause: Txt,
    },
    /// No such step leads out of the order's state.
    BadTransition {
        /// The state.
        state: Txt,
        /// The step.
        action: Txt,
    },
    /// Less is available of a product than an order, a reopening or a negative adjustment wants.
    StockShort {
        /// The id of the product of the first line that is short.
        product: u128,
        /// How many pieces are available.
        have: i64,
        /// How many pieces are wanted, over all lines with the product.
        want: i64,
    },
    /// As many changes were accepted, 2^62, as there may ever be.
    HistoryFull,
}

/// A copy of a refusal. The variants are listed with their parts, and of each part a copy is made. The
/// arm that stands before the list is taken as it is.
macro_rules! copy_by_parts {
    ($broken:expr, $alloc:expr; $by_hand:pat => $copy:expr; $($variant:ident $({ $($part:ident),+ })?;)+) => {
        match $broken {
            $by_hand => $copy,
            $(Broken::$variant $({ $($part),+ })? => {
                Ok(Broken::$variant $({ $($part: $part.copy($alloc)?),+ })?)
            })+
        }
    };
}

impl Copied for Broken {
    fn copy(&self, alloc: Global) -> Result<Broken, NoMemory> {
        copy_by_parts! { self, alloc;
            Broken::MergeBroken { commit, op, inner } => {
                let inner = inner.get().copy(alloc)?;
                Ok(Broken::MergeBroken {
                    commit: *commit,
                    op: *op,
                    inner: Boxed::new(alloc, inner)?,
                })
            };
            UnknownEntity;
            UnknownField { field };
            WrongKind { field };
            OutOfRange { field, value };
            NotVersioned { entity };
            NoSuchVersion { version };
            VersionExists { version };
            OutsideDraft { key };
            NoSuchRow { key };
            FixedField { field };
            MissingRequired { field };
            MissingReference { field, id };
            Duplicate { key };
            ParentCycle { id };
            ParentTooDeep { id };
            InUse { by };
            TooMany { entity, limit };
            OrderExists { id };
            NoSuchCart { id };
            CartEmpty { id };
            Unstable { id };
            Blocked { line, cause };
            BadTransition { state, action };
            StockShort { product, have, want };
            HistoryFull;
        }
    }
}

//! The table of a shop, its rule, and what each kind of step does.
ghost use Rattle.std.specs.Prelude.{◌≡◌};

use crate::view::{Opening, View};
use atomic_table::{Join, Play, Split, Table, TableRule};
use std::alloc::Global;
use std::marker::{Brand, PhantomData};

/// Names one table, for contracts alone: what is of one shop has the name of its table in its type.
pub trait Naming {
    ghost use Rattle.atomic_table.specs.Seated.{TableId};

    ghost table: { TableId };
}

impl Naming for Brand {
    ghost use Rattle.shop_shared.specs.Passes.{no_table};

    ghost table = { no_table };
}

/// Names an entry, for the step that adds it.
pub trait Said {
    ghost use Rattle.std.specs.Prelude.{Option};
    ghost use Rattle.shop_core.specs.declared.answers.Entry.{Entry};

    ghost said: { Option Entry };
}

impl Said for Brand {
    ghost use Rattle.std.specs.Prelude.{None};

    ghost said = { None };
}

/// Names a count, for the step that takes it over.
pub trait Counted {
    ghost use Rattle.std.specs.Prelude.{ℕ};

    ghost count: { ℕ };
}

impl Counted for Brand {
    ghost count = { 0 };
}

/// The rule of the table.
pub struct SeatRule;

impl TableRule<u64, View, Opening> for SeatRule {
    ghost use Rattle.shop_shared.specs.declared.view.View.TheVariants.{Keeps};
    ghost use Rattle.shop_shared.specs.Views.{new_master};
    ghost use Rattle.shop_shared.specs.Rule.{IsRuled};

    ghost holds = { λ _ s. IsRuled s };

    ghost first = { λ opening. Keeps (new_master opening) };
}

/// The door is made.
pub(crate) struct OpensDoor;

impl Split<View> for OpensDoor {
    ghost use Rattle.shop_shared.specs.Views.{door_left, door_right};

    ghost left = { door_left };

    ghost right = { door_right };
}

/// The door lets a caller in.
pub(crate) struct Enters;

impl Split<View> for Enters {
    ghost use Rattle.shop_shared.specs.Views.{enter_left, enter_right};

    ghost left = { enter_left };

    ghost right = { enter_right };
}

/// The master takes a caller in.
pub(crate) struct Joins;

impl Join<View> for Joins {
    ghost use Rattle.shop_shared.specs.declared.view.View.TheVariants.{Spent};
    ghost use Rattle.shop_shared.specs.Views.{join_both};

    ghost both = { join_both };

    ghost spent = { Spent };
}

/// The master is told what the rule says of it.
pub(crate) struct Checks;

impl Play<u64, View> for Checks {
    ghost use Rattle.shop_shared.specs.Plays.{checked};

    ghost then = { checked };
}

/// The history grows by an entry.
pub(crate) struct Commits<E> {
    entry: PhantomData<E>,
}

impl<E: Said> Play<u64, View> for Commits<E> {
    ghost use Rattle.shop_shared.specs.Plays.{commits};

    ghost then = { commits E.said };
}

/// The published front rises.
pub(crate) struct Publishes;

impl Play<u64, View> for Publishes {
    ghost use Rattle.shop_shared.specs.Plays.{publishes};

    ghost then = { publishes };
}

/// The count of faults becomes the keeper's.
pub(crate) struct Faults<C> {
    count: PhantomData<C>,
}

impl<C: Counted> Play<u64, View> for Faults<C> {
    ghost use Rattle.shop_shared.specs.Plays.{counts};

    ghost then = { counts C.count };
}

/// The held caller is given what the master knows.
pub(crate) struct Splits;

impl Split<View> for Splits {
    ghost use Rattle.shop_shared.specs.Views.{split_left, split_right};

    ghost left = { split_left };

    ghost right = { split_right };
}

/// The held caller is let go.
pub(crate) struct Leaves;

impl Play<u64, View> for Leaves {
    ghost use Rattle.shop_shared.specs.Plays.{leaves};

    ghost then = { leaves };
}

/// The shop is shut, and its door is used up.
pub(crate) struct Shuts;

impl Join<View> for Shuts {
    ghost use Rattle.shop_shared.specs.declared.view.View.TheVariants.{Spent};
    ghost use Rattle.shop_shared.specs.Views.{shut_both};

    ghost both = { shut_both };

    ghost spent = { Spent };
}

/// A table of three words: how many entries were accepted, the published front, and how often the
/// count of faults was taken over.
pub type Words = Table<u64, View, Opening, SeatRule, Global>;

/// The table that `J` names.
#[derive(Drop)]
pub struct Board<J: Naming> {
    pub(crate) table: Words,
    pub(crate) of: PhantomData<J>,
    pub ghost named: { table.shared.table_id ≡ J.table },
    pub ghost words: { table.shared.table_id.words ≡ 3 },
}

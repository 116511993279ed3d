//! Look-up of rows.
ghost use Rattle.std.specs.Prelude.{◌≡◌};
ghost use Rattle.std.specs.Option.{option_copied};

use crate::key::Key;
use crate::row::Row;

/// Where a row is looked up by a key.
///
/// It shows a finite map from keys to rows. The key that a row is looked up by need not be the row's
/// own: a draft shows a live row under the key that the row would have in the draft.
pub trait Look {
    ghost use Rattle.std.specs.Prelude.{Option};
    ghost use Rattle.shop_defs.specs.declared.key.Key.{Key};
    ghost use Rattle.shop_defs.specs.declared.row.Row.{Row};

    ghost shown: { Self → Key → Option Row };

    /// The row that is shown under the key: `None` where none is.
    fn row<'a>(&'a self, key: &Key) -> Option<&'a Row>
        ensures { option_copied result ≡ shown self.now key.now };
}

ghost use Rattle.std.specs.Prelude.{◌≡◌, IfOk};

use crate::memory::{Duplicate, OutOfMemory};
use std::marker::Model;
use std::sync::ArcSlice;

/// A list that doesn't change, seen as a list. Its copies share its items.
#[derive(Debug, Drop)]
pub struct Shared<T> {
    items: ArcSlice<T>,
}

impl<T> Model for Shared<T> {
    ghost use Rattle.std.specs.Prelude.{List};
    ghost use Rattle.std.specs.Arc.{arc_slice_items};
    ghost use Rattle.std.specs.Coded.{coded_list};

    ghost Value = { List T };

    ghost coded = { coded_list T.code };

    ghost view = { λ s. arc_slice_items s.items };
}

impl<T: Drop> Shared<T> {
    /// The items of a vector.
    pub fn of(items: Vec<T>) -> Result<Shared<T>, OutOfMemory>
        ensures { IfOk result (λ s. s ≡ items.items) }
    {
        Ok(Shared {
            items: ArcSlice::from_vec(items)?,
        })
    }

    /// The items, the first one first.
    pub fn as_slice(&self) -> &[T]
        ensures { result.now ≡ self.now }
    {
        self.items.as_slice()
    }
}

// A copy is one more owner of the items.
impl<T: Drop> Duplicate for Shared<T> {
    fn copy(&self) -> Result<Shared<T>, OutOfMemory> {
        Ok(Shared {
            items: self.items.clone()?,
        })
    }
}

//! Items of one kind in a place that is filled again and again.
ghost use Rattle.std.specs.Prelude.{◌≡◌, ◌<◌, [], ◌∷◌, ◌++◌, length};

use crate::batch::BATCH_MAX;
use std::marker::Model;

/// At most `BATCH_MAX` items, in memory that was taken once. Contracts see the list. It costs nothing to empty it.
#[derive(Drop)]
pub struct Row<T: Drop> {
    pub(crate) places: Vec<T>,
    pub(crate) len: usize,
}

impl<T: Drop> Model for Row<T> {
    ghost use Rattle.std.specs.Prelude.{◌≡◌, ◌≤◌, List, length, take};
    ghost use Rattle.firmware_loop.specs.declared.batch.TheConstants.{BATCH_MAX};

    ghost Value = { List T };

    ghost view = { λ row. take row.len row.places.items };

    ghost invariant = { λ row. record {
      within : row.len ≤ BATCH_MAX;
      size : length row.places.items ≡ BATCH_MAX;
    } };
}

impl<T: Drop> Row<T> {
    /// A row without items, with these places.
    pub fn new(places: Vec<T>) -> Row<T>
        requires { length places.items ≡ BATCH_MAX }
        ensures { result ≡ [] }
    {
        Row { places, len: 0 }
    }

    /// The items.
    #[inline(always)]
    pub fn as_slice(&self) -> &[T]
        ensures { result.now ≡ self.now }
    {
        &self.places[..self.len]
    }

    /// Drops every item.
    #[inline(always)]
    pub fn clear(&mut self)
        ensures { self.new ≡ [] }
    {
        self.len = 0;
    }
}

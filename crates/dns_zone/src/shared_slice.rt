//! The read-only lists of a zone.
ghost use Rattle.std.specs.Prelude.{◌≡◌};

use std::marker::Model;

/// A read-only list that gives no access to its memory or its allocator.
#[derive(Drop)]
pub(crate) struct SharedSlice<T> {
    items: Vec<T>,
}

impl<T> Model for SharedSlice<T> {
    ghost use Rattle.std.specs.Prelude.{List};

    ghost Value = { List T };

    ghost view = { λ k. k.items.items };
}

impl<T> SharedSlice<T> {
    pub(crate) fn new(items: Vec<T>) -> SharedSlice<T>
        ensures { result ≡ items.items }
    {
        SharedSlice { items }
    }

    pub(crate) fn borrowed(&self) -> &[T]
        ensures { result.now ≡ self.now }
    {
        self.items.as_slice()
    }
}

//! The items of a piece, as other programs read them.

ghost use Rattle.std.specs.Prelude.{◌≡◌};

use lx_scan::Item;
use std::marker::Model;

/// A list of items, which contracts see as that list.
#[derive(Debug, Drop)]
pub struct Items {
    list: Vec<Item>,
}

impl Model for Items {
    ghost use Rattle.std.specs.Prelude.{List};
    ghost use Rattle.lx_scan.specs.declared.item.Item.{Item};

    ghost Value = { List Item };

    ghost view = { λ s. s.list.items };
}

impl Items {
    /// Makes a list of a `Vec`, in its memory.
    pub fn from_vec(list: Vec<Item>) -> Self
        ensures { result ≡ list.items }
    {
        Self { list }
    }

    /// Returns the items as a `Vec`, in the same memory.
    pub fn into_vec(self) -> Vec<Item>
        ensures { result.items ≡ self }
    {
        let Items { list } = self;
        list
    }

    pub fn as_slice(&self) -> &[Item]
        ensures { result.now ≡ self.now }
    {
        self.list.as_slice()
    }

    /// Returns the number of items for which there is memory.
    pub(crate) fn capacity(&self) -> usize {
        self.list.capacity()
    }
}

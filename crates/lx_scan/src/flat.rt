//! Items in a single form, so that no jump depends on their kind.

ghost use Rattle.std.specs.Prelude.{◌≡◌};
ghost use Rattle.lx_tables.specs.Labels.{kind_of_label};
ghost use Rattle.lx_scan.specs.ItemParts.{kind_of_item, len_of, line_of, start_of};

use crate::item::Item;
use lx_rules::rule::Kind;
use lx_tables::{kind_of_label, label_of};
use std::marker::Model;

/// An item in a single form, whatever its kind. Contracts see the item.
#[derive(Drop)]
pub struct FlatItem {
    pub(crate) line: u64,
    pub(crate) start: usize,
    pub(crate) len: usize,
    pub(crate) label: u64,
}

impl Model for FlatItem {
    ghost use Rattle.lx_tables.specs.Labels.{kind_of_label};
    ghost use Rattle.lx_scan.specs.declared.item.Item.{Item};
    ghost use Rattle.lx_scan.specs.ItemParts.{item_of_kind};

    ghost Value = { Item };

    ghost view = { λ s. item_of_kind (kind_of_label s.label) s.line s.start s.len };
}

impl FlatItem {
    /// Converts an item to this form.
    pub fn of(item: Item) -> FlatItem
        ensures { result ≡ item }
    {
        match item {
            Item::Token {
                line,
                start,
                len,
                kind,
            } => FlatItem {
                line,
                start,
                len,
                label: label_of(Some(kind)),
            },
            Item::Echo { line, start, len } => FlatItem {
                line,
                start,
                len,
                label: label_of(None),
            },
        }
    }

    /// Returns the item.
    pub fn item(&self) -> Item
        ensures { result ≡ self.now }
    {
        let line = self.line;
        let start = self.start;
        let len = self.len;
        match kind_of_label(self.label) {
            Some(kind) => Item::Token {
                line,
                start,
                len,
                kind,
            },
            None => Item::Echo { line, start, len },
        }
    }

    /// Returns the line on which it begins.
    #[inline(always)]
    pub fn line(&self) -> u64
        ensures { result ≡ line_of self.now }
    {
        self.line
    }

    /// Returns the position of its first byte in its text.
    #[inline(always)]
    pub fn start(&self) -> usize
        ensures { result ≡ start_of self.now }
    {
        self.start
    }

    /// Returns its number of bytes.
    #[inline(always)]
    pub fn len(&self) -> usize
        ensures { result ≡ len_of self.now }
    {
        self.len
    }

    /// Returns the label of its kind, or of an echo.
    #[inline(always)]
    pub fn label(&self) -> u64
        ensures { kind_of_label result ≡ kind_of_item self.now }
    {
        self.label
    }
}

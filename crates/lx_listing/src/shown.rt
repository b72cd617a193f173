//! The contents of a listing's piece.

ghost use Rattle.std.specs.Prelude.{◌≡◌, All};
ghost use Rattle.lx_scan.specs.ItemParts.{IsItemOf};
ghost use Rattle.lx_piece.specs.Plans.{bytes_of, kinds_of};
ghost use Rattle.lx_line.specs.Lines.{lines_of};
ghost use Rattle.lx_listing.specs.Shown.{IsFormOf, shown};

use lx_piece::Plan;
use lx_scan::{Item, ItemList};
use std::marker::Model;
use std::snapshot::Snapshot;

/// The contents of a piece: the items as they were cut, the items as they were given, or their lines one after the other.
#[derive(Drop)]
pub enum ShownForm {
    Bare(ItemList),
    Given(Vec<Item>),
    Lines {
        block: Vec<u8>,
        // The items, for contracts only.
        items: Snapshot<ItemList>,
    },
}

/// The contents of a listing's piece: its items, or their lines. Contracts see only the items.
#[derive(Drop)]
pub struct Shown {
    form: ShownForm,
    file: u32,
    plan: Snapshot<Plan>,
}

impl Model for Shown {
    ghost use Rattle.lx_listing.specs.Shown.{IsFormOf, ShownItems, items_in};

    ghost Value = { ShownItems };

    ghost view = { λ s. record { plan = s.plan.value; file = s.file; items = items_in s.form } };

    ghost invariant = { λ s. IsFormOf s.plan.value s.file (items_in s.form) s.form };
}

// Sizes of an item in a list and in a `Vec`, in bytes.
const FLAT_ITEM: u64 = 32;

const ITEM: u64 = 40;

impl Shown {
    /// Wraps items as they were cut.
    pub fn of_items(plan: &Plan, file: u32, items: ItemList) -> Shown
        requires { All (IsItemOf (kinds_of plan.now) (bytes_of plan.now file)) items }
        ensures { result ≡ shown plan.now file items }
    {
        Shown {
            form: ShownForm::Bare(items),
            file,
            plan: Snapshot::of(plan),
        }
    }

    /// Wraps items as they were given.
    pub fn of_given(plan: &Plan, file: u32, items: Vec<Item>) -> Shown
        requires { All (IsItemOf (kinds_of plan.now) (bytes_of plan.now file)) items.items }
        ensures { result ≡ shown plan.now file items.items }
    {
        Shown {
            form: ShownForm::Given(items),
            file,
            plan: Snapshot::of(plan),
        }
    }

    /// Wraps the lines of items.
    pub fn of_lines(plan: &Plan, file: u32, items: &ItemList, block: Vec<u8>) -> Shown
        requires { block.items ≡ lines_of plan.now file items.now }
        ensures { result ≡ shown plan.now file items.now }
    {
        let items = Snapshot::of(items);
        Shown {
            form: ShownForm::Lines { block, items },
            file,
            plan: Snapshot::of(plan),
        }
    }

    /// Returns the items or their lines.
    pub fn into_form(self) -> ShownForm
        ensures { IsFormOf self.plan self.file self.items result }
    {
        let Shown {
            form,
            file: _file,
            plan: _plan,
        } = self;
        form
    }

    /// Returns the approximate memory of the contents, in bytes.
    pub fn weight(&self) -> u64 {
        match &self.form {
            ShownForm::Bare(items) => FLAT_ITEM.saturating_mul(items.capacity() as u64),
            ShownForm::Given(items) => ITEM.saturating_mul(items.capacity() as u64),
            ShownForm::Lines { block, .. } => block.capacity() as u64,
        }
    }
}

//! Makers of what a piece carries, from its items.

ghost use Rattle.std.specs.Prelude.{◌≡◌, ◌<◌, [], All, IfOk};
ghost use Rattle.lx_scan.specs.ItemParts.{IsItemOf};
ghost use Rattle.lx_piece.specs.Pieces.{Making};
ghost use Rattle.lx_piece.specs.Plans.{bytes_of, files_of, kinds_of};

use crate::items::Items;
use crate::plan::Plan;
use lx_scan::ItemList;
use std::alloc::{AllocError, Global};

/// A maker of what a piece carries, from its items.
pub trait Maker {
    type Made: Drop;

    /// The result for given items of a file of a plan.
    ghost made: { Making Self.Made };

    /// Returns an empty list with room for the items of the next piece, at most `items`. The maker decides where its memory is.
    fn room(&mut self, alloc: Global, items: usize) -> Result<ItemList, AllocError>
        ensures { IfOk result (λ list. list ≡ []) }
    {
        let mut list = ItemList::new(alloc);
        list.reserve(items)?;
        Ok(list)
    }

    /// Makes what a piece of this file carries.
    fn make(&mut self, plan: &Plan, file: u32, items: ItemList) -> Result<Self::Made, AllocError>
        requires file { file < files_of plan.now }
        requires items { All (IsItemOf (kinds_of plan.now) (bytes_of plan.now file)) items }
        ensures { IfOk result (λ carried. carried ≡ made plan.now file items) };

    /// Returns the approximate memory of a result, in bytes. No contract speaks of it.
    fn weight(made: &Self::Made) -> u64;
}

// Size of an item, in bytes.
const ITEM: u64 = 40;

/// A maker that leaves the items as they are.
#[derive(Clone, Copy, Debug)]
pub struct KeepItems;

impl Maker for KeepItems {
    ghost use Rattle.lx_piece.specs.Pieces.{bare};

    type Made = Items;

    ghost made = { bare };

    fn make(&mut self, _plan: &Plan, _file: u32, items: ItemList) -> Result<Items, AllocError> {
        Ok(Items::from_vec(items.to_vec()?))
    }

    fn weight(made: &Items) -> u64 {
        ITEM.saturating_mul(made.capacity() as u64)
    }
}

//! Makes the lines of a piece if many pieces are under way.

ghost use Rattle.std.specs.Prelude.{◌≡◌};

use crate::lengths::are_long;
use crate::shown::Shown;
use crate::spare_memory::{Spares, emptied, emptied_list};
use lx_line::push_lines;
use lx_piece::{Maker, Plan};
use lx_scan::ItemList;
use std::alloc::{AllocError, Global};

// Greatest number of text bytes of a piece for which a worker makes the lines. Longer texts are written in parts, so no block holds them.
const MOST: usize = 262_144;

/// A maker of a piece's lines, if many pieces are under way and its texts aren't long. Otherwise it leaves the items.
#[derive(Clone, Copy, Drop)]
pub struct LineMaker<Y: Spares> {
    alloc: Global,
    spares: Y,
    // The file being cut, and the number of its pieces that were made.
    file: u32,
    sent: u64,
}

impl<Y: Spares> LineMaker<Y> {
    pub fn new(alloc: Global, spares: Y) -> LineMaker<Y> {
        LineMaker {
            alloc,
            spares,
            file: 0,
            sent: 0,
        }
    }
}

impl<Y: Spares> Maker for LineMaker<Y> {
    ghost use Rattle.lx_listing.specs.Shown.{shown};

    type Made = Shown;

    ghost made = { shown };

    fn room(&mut self, alloc: Global, items: usize) -> Result<ItemList, AllocError> {
        let mut list = emptied_list(alloc, self.spares.take_list(self.file));
        list.reserve(items)?;
        Ok(list)
    }

    fn make(&mut self, plan: &Plan, file: u32, items: ItemList) -> Result<Shown, AllocError> {
        if self.file != file {
            self.file = file;
            self.sent = 0;
        }
        self.spares.send(self.sent);
        self.sent = self.sent.wrapping_add(1);
        if !self.spares.are_many(file, self.sent) || are_long(items.as_slice(), MOST) {
            return Ok(Shown::of_items(plan, file, items));
        }
        let mut block = emptied(self.alloc, self.spares.take_block(file));
        match push_lines(&mut block, plan, file, items.as_slice()) {
            Ok(()) => {
                let made = Shown::of_lines(plan, file, &items, block);
                self.spares.give_list(file, items);
                Ok(made)
            }
            // without memory for the lines, the items suffice
            Err(_) => Ok(Shown::of_items(plan, file, items)),
        }
    }

    fn weight(made: &Shown) -> u64 {
        made.weight()
    }
}

//! Texts in blocks. The law of blocks: wherever a text is cut, its items are the same.

ghost use Rattle.std.specs.Prelude.{◌≡◌, ◌++◌, ℕ, List, false, true, IfOk, OnOk, flat_map};
ghost use Rattle.lx_scan.specs.declared.item.Item.{Item};
ghost use Rattle.lx_scan.specs.Items.{items_of};
ghost use Rattle.lx_scan.specs.Streams.{AreDecided, GivesTo, HasScanned, IsDrained, Stream};

use crate::block_scanner::BlockScanner;
use crate::item::Item;
use crate::list::ItemList;
use lx_tables::Tables;
use std::alloc::{AllocError, Global};

// Feeds blocks to a scanner, and appends all items that they decide.
fn feed_all(
    tables: &Tables,
    blocks: &[Vec<u8>],
    scanner: &mut BlockScanner,
    items: &mut ItemList,
) -> Result<(), AllocError>
    requires table { scanner.old.table ≡ tables.now }
    requires goes_on { scanner.old.has_ended ≡ false }
    ensures table { scanner.new.table ≡ scanner.old.table }
    ensures goes_on { scanner.new.has_ended ≡ false }
    ensures scanned { OnOk result ((front : List ℕ) → HasScanned scanner.old front items.old
        → HasScanned scanner.new (front ++ flat_map (λ block. block.items) blocks.now) items.new) }
    ensures drained { OnOk result (IsDrained scanner.old → IsDrained scanner.new) }
{
    for block in blocks {
        scanner.feed(block)?;
        scanner.all_items(tables, items)?;
    }
    Ok(())
}

/// Returns the items of the text that these blocks are, one after the other. AllocError if an allocation fails.
pub fn scan_blocks(
    alloc: Global,
    tables: &Tables,
    blocks: &[Vec<u8>],
) -> Result<Vec<Item>, AllocError>
    ensures { IfOk result (λ items.
        items.items ≡ items_of tables.now (flat_map (λ block. block.items) blocks.now)) }
{
    let mut scanner = BlockScanner::new(alloc, tables);
    let mut items = ItemList::new(alloc);
    feed_all(tables, blocks, &mut scanner, &mut items)?;
    scanner.end();
    scanner.all_items(tables, &mut items)?;
    items.to_vec()
}

/// Returns the items that are decided by these blocks of a text, whatever blocks follow. AllocError if an allocation fails.
pub fn decided_items(
    alloc: Global,
    tables: &Tables,
    blocks: &[Vec<u8>],
) -> Result<Vec<Item>, AllocError>
    ensures { IfOk result (λ items.
        AreDecided tables.now (flat_map (λ block. block.items) blocks.now) items.items) }
{
    let mut scanner = BlockScanner::new(alloc, tables);
    let mut items = ItemList::new(alloc);
    feed_all(tables, blocks, &mut scanner, &mut items)?;
    items.to_vec()
}

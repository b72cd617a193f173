//! A scanner that is fed a text in blocks, and gives each item as soon as no further byte could change it.

ghost use Rattle.std.specs.Prelude.{◌≡◌, ◌<◌, ◌≤◌, ℕ, Bool, List, true, false, IfNone, IfSome, OnErr, OnOk, drop, length};
ghost use Rattle.lx_tables.specs.Model.{Table};
ghost use Rattle.lx_scan.specs.Cursors.{listed};
ghost use Rattle.lx_scan.specs.declared.item.Item.{Item};
ghost use Rattle.lx_scan.specs.ItemParts.{LiesAt, len_of, start_of, text_at, text_of};
ghost use Rattle.lx_scan.specs.Streams.{Feeds, Gives, GivesTo, IsDrained, IsFedOf, IsKept, IsOpenMemory, IsOver, first_stream};

use crate::item::Item;
use crate::list::ItemList;
use crate::memory::ScanMemory;
use crate::progress::Progress;
use lx_tables::Tables;
use std::alloc::{AllocError, Global};
use std::marker::Model;
use std::snapshot::Snapshot;

/// A scanner that is fed a text in blocks. It gives the items of the whole text in order, wherever the text is cut, and each one as soon as no further
/// byte could change it. It keeps the bytes of the last match and of the match in progress, and about as many again.
#[derive(Drop)]
pub struct BlockScanner {
    // The tables, for contracts only.
    tables: Snapshot<Tables>,
    // The bytes that were fed last.
    bytes: Vec<u8>,
    progress: Progress,
    // Memory of these bytes by the tables, whatever bytes follow.
    memory: ScanMemory,
}

impl Model for BlockScanner {
    ghost use Rattle.lx_scan.specs.Streams.{IsOpenMemory, IsProgress, Stream, stream_at};

    ghost Value = { Stream };

    ghost view = { λ s. stream_at s.tables.value s.bytes.items s.progress };

    ghost invariant = { λ s.
        IsProgress s.tables.value s.bytes.items s.progress
        × IsOpenMemory s.tables.value s.bytes.items s.progress.has_ended s.memory };
}

// Returns the position of an item's first byte in its text, and its number of bytes.
fn span_of(item: Item) -> (usize, usize)
    ensures start { result.0 ≡ start_of item }
    ensures len { result.1 ≡ len_of item }
{
    match item {
        Item::Token { start, len, .. } | Item::Echo { start, len, .. } => (start, len),
    }
}

// Removes the first bytes, if no more than these have to be moved for it. Returns the number of removed bytes. The memory is kept as long as they are, so
// no more bytes are read again than were removed.
fn remove_front(bytes: &mut Vec<u8>, memory: &mut ScanMemory, unused: usize) -> usize
    requires { unused ≤ length bytes.old.items }
    ensures few { result ≤ unused }
    ensures bytes { bytes.new.items ≡ drop result bytes.old.items }
    ensures memory { (table : Table) (has_ended : Bool)
        → IsOpenMemory table bytes.old.items has_ended memory.old
        → IsOpenMemory table bytes.new.items has_ended memory.new }
{
    if bytes.len() - unused > unused {
        return 0;
    }
    bytes.drain(..unused);
    memory.clear();
    unused
}

impl BlockScanner {
    /// Returns a scanner before the first byte of a text. Allocates nothing.
    pub fn new(alloc: Global, tables: &Tables) -> BlockScanner
        ensures { result ≡ first_stream tables.now }
    {
        BlockScanner {
            tables: Snapshot::of(tables),
            bytes: Vec::new(alloc),
            progress: Progress::begin(tables),
            memory: ScanMemory::new(alloc),
        }
    }

    /// Feeds the next block of the text. AllocError if an allocation fails, or if the text has 2^64 - 1 bytes or more: then nothing changes.
    pub fn feed(&mut self, block: &[u8]) -> Result<(), AllocError>
        requires { self.old.has_ended ≡ false }
        ensures ok { OnOk result (Feeds self.old self.new block.now) }
        ensures err { OnErr result (self.new ≡ self.old) }
    {
        let start = self.progress.start;
        let unused = start - self.progress.cursor.found.len;
        let held = self.bytes.len() - start;
        if block.len() >= usize::MAX - self.progress.cursor.place.offset - held {
            return Err(AllocError);
        }
        self.bytes.extend_from_slice(block)?;
        let removed = remove_front(&mut self.bytes, &mut self.memory, unused);
        self.progress.start = start - removed;
        Ok(())
    }

    /// Ends the text after the bytes that were fed.
    pub fn end(&mut self)
        ensures { self.new ≡ record self.old { has_ended = true } }
    {
        self.progress.has_ended = true;
    }

    /// Returns true if the text has ended.
    pub fn has_ended(&self) -> bool
        ensures { result ≡ self.now.has_ended }
    {
        self.progress.has_ended
    }

    /// Returns the bytes of an item. It has to be of the last match, or given since the last block was fed.
    pub fn text(&self, item: Item) -> &[u8]
        requires { IsKept self.now item }
        ensures { (text rest : List ℕ) → IsFedOf self.now text rest
            → result.now ≡ text_of text item }
    {
        let (start, len) = span_of(item);
        let from = start - (self.progress.cursor.place.offset - self.progress.start);
        &self.bytes[from..from + len]
    }

    /// Returns the bytes that it keeps, and the position of the first of them in the text. They have the bytes of each item that is kept.
    pub fn bytes(&self) -> (&[u8], usize)
        ensures within { (item : Item) → IsKept self.now item
            → LiesAt result.0.now result.1 item }
        ensures texts { (item : Item) (text rest : List ℕ) → IsKept self.now item
            → IsFedOf self.now text rest → text_at result.0.now result.1 item ≡ text_of text item }
    {
        (
            &self.bytes,
            self.progress.cursor.place.offset - self.progress.start,
        )
    }

    /// Returns the next item, or None if none is decided by the bytes that were fed. The tables are those that the scanner was made with. Allocates
    /// nothing.
    pub fn next_item(&mut self, tables: &Tables) -> Option<Item>
        requires { self.old.table ≡ tables.now }
        ensures gives { Gives self.old self.new (listed result) }
        ensures kept { IfSome result (λ item. IsKept self.new item) }
        ensures drained { IfNone result (IsDrained self.new) }
        ensures over { IfNone result (IsOver self.new) }
    {
        self.progress
            .next_item(tables, &self.bytes, &mut self.memory)
    }

    /// Appends the next items to a list until it has `most`, or all that are decided by the bytes that were fed. The tables are those that the scanner was
    /// made with. AllocError if an allocation fails: then the scanner is unchanged, and the list may have some of the items.
    pub fn next_items(
        &mut self,
        tables: &Tables,
        most: usize,
        items: &mut ItemList,
    ) -> Result<(), AllocError>
        requires table { self.old.table ≡ tables.now }
        requires few { length items.old ≤ most }
        ensures gives { OnOk result (GivesTo self.old self.new items.old items.new) }
        ensures most { OnOk result (length items.new ≤ most) }
        ensures drained { OnOk result (length items.new < most → IsDrained self.new) }
        ensures over { OnOk result (length items.new < most → IsOver self.new) }
        ensures err { OnErr result (self.new ≡ self.old) }
    {
        let mut progress = self.progress;
        progress.next_items(tables, &self.bytes, &mut self.memory, most, items)?;
        self.progress = progress;
        Ok(())
    }

    /// Appends all items that are decided by the bytes that were fed to a list. The tables are those that the scanner was made with. AllocError if an
    /// allocation fails: then the scanner is unchanged, and the list may have some of the items.
    pub fn all_items(&mut self, tables: &Tables, items: &mut ItemList) -> Result<(), AllocError>
        requires { self.old.table ≡ tables.now }
        ensures gives { OnOk result (GivesTo self.old self.new items.old items.new) }
        ensures drained { OnOk result (IsDrained self.new) }
        ensures over { OnOk result (IsOver self.new) }
        ensures err { OnErr result (self.new ≡ self.old) }
    {
        let mut progress = self.progress;
        progress.all_items(tables, &self.bytes, &mut self.memory, items)?;
        self.progress = progress;
        Ok(())
    }
}

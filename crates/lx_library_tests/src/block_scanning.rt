//! Tests the scanner of blocks: texts in blocks of every size have the items of the whole text, and each item is given as soon as it is decided.

use crate::table_texts::tables_by;
use crate::texts::holds;
use lx_scan::{BlockScanner, ItemList, decided_items, scan, scan_blocks};
use lx_tables::Tables;
use std::process::Abort;

/// Sizes of blocks.
const SIZES: &[usize] = &[1, 2, 3, 7, 64];

/// Number of items that is more than any text here has.
const MOST: usize = 1000;

/// Rules of which one reads far in vain: `a` is decided once no `b` can follow.
const BACK_UP: &str = "%%\na return A;\na*b return B;\n";

/// Rules with `^` and `$`, with conditions, and with a match that has two items.
const ANCHORS: &str =
    "%x IN\n%%\n^foo return F;\nfoo$ return E;\nfoo { ECHO; return G; }\n\\\" BEGIN IN;\n<IN>[^\"]+ return S;\n<IN>\\\" BEGIN 0;\n[ \\n]+ ;\n";

/// Returns a text in blocks of a size.
fn blocks_of<R: Abort + AllocGlobal>(rt: &R, text: &[u8], size: usize) -> Vec<Vec<u8>> {
    let mut blocks = Vec::new(rt.alloc());
    for part in text.chunks(size.max(1)) {
        let block = Vec::from_slice(rt.alloc(), part).expect(rt, "memory");
        blocks.push(block).expect(rt, "memory");
    }
    blocks
}

/// Asserts that a text has its items in two blocks, if they are appended to a list.
fn cut_in_two<R: Abort + AllocGlobal>(rt: &R, tables: &Tables, text: &[u8]) {
    let whole = scan(rt.alloc(), tables, text).expect(rt, "memory");
    let (front, back) = text.split_at(text.len() / 2);
    let mut scanner = BlockScanner::new(rt.alloc(), tables);
    let mut items = ItemList::new(rt.alloc());
    scanner.feed(front).expect(rt, "memory");
    scanner
        .next_items(tables, MOST, &mut items)
        .expect(rt, "memory");
    scanner.feed(back).expect(rt, "memory");
    scanner
        .next_items(tables, MOST, &mut items)
        .expect(rt, "memory");
    scanner.end();
    scanner
        .next_items(tables, MOST, &mut items)
        .expect(rt, "memory");
    let found = items.to_vec().expect(rt, "memory");
    holds(rt, found.as_slice() == whole.as_slice(), "two blocks");
}

/// Asserts that a text has its items in blocks of every size.
fn cut_anyhow<R: Abort + AllocGlobal>(rt: &R, tables: &Tables, text: &[u8]) {
    let whole = scan(rt.alloc(), tables, text).expect(rt, "memory");
    for size in SIZES {
        let blocks = blocks_of(rt, text, *size);
        let items = scan_blocks(rt.alloc(), tables, &blocks).expect(rt, "memory");
        holds(rt, items.as_slice() == whole.as_slice(), "items");
    }
    cut_in_two(rt, tables, text);
}

/// Asserts the number of items that a text decides, which begin each text that begins with it.
fn decides<R: Abort + AllocGlobal>(rt: &R, tables: &Tables, text: &[u8], count: usize) {
    let whole = scan(rt.alloc(), tables, text).expect(rt, "memory");
    let blocks = blocks_of(rt, text, 2);
    let items = decided_items(rt.alloc(), tables, &blocks).expect(rt, "memory");
    holds(rt, items.len() == count, "decided");
    holds(rt, whole.as_slice().starts_with(items.as_slice()), "first");
}

#[test]
fn every_cut_into_blocks_has_the_same_items(rt: HostRuntime) {
    let tables = tables_by(&rt, ANCHORS);
    cut_anyhow(&rt, &tables, b"foo foo\nfoo\n\nfoo \"foo\nfoo\" x\xff foo");
    cut_anyhow(&rt, &tables, b"");
    cut_anyhow(&rt, &tables, b"\n");
    let tables = tables_by(&rt, BACK_UP);
    cut_anyhow(
        &rt,
        &tables,
        b"aaaab aaaaaaaaaaaaaaaaaaaaaaac aaaaaaaaaaaaaab aaaaaaaaa",
    );
}

#[test]
fn an_item_is_given_once_no_byte_could_change_it(rt: HostRuntime) {
    let tables = tables_by(&rt, BACK_UP);
    decides(&rt, &tables, b"aaa", 0);
    decides(&rt, &tables, b"aaac", 4);
    decides(&rt, &tables, b"aaab", 1);
    let tables = tables_by(&rt, ANCHORS);
    decides(&rt, &tables, b"foo", 0);
    decides(&rt, &tables, b"x foo\n", 2);
}

#[test]
fn a_match_may_lie_in_several_blocks(rt: HostRuntime) {
    let tables = tables_by(&rt, BACK_UP);
    let mut scanner = BlockScanner::new(rt.alloc(), &tables);
    scanner.feed(b"aa").expect(&rt, "memory");
    holds(&rt, scanner.next_item(&tables).is_none(), "undecided");
    scanner.feed(b"aab").expect(&rt, "memory");
    let wanted: &[u8] = b"aaaab";
    match scanner.next_item(&tables) {
        Some(item) => holds(&rt, scanner.text(item) == wanted, "text"),
        None => holds(&rt, false, "no item"),
    }
    scanner.feed(b"a").expect(&rt, "memory");
    holds(&rt, !scanner.has_ended(), "goes on");
    scanner.end();
    let mut items = ItemList::new(rt.alloc());
    scanner
        .next_items(&tables, 8, &mut items)
        .expect(&rt, "memory");
    scanner.all_items(&tables, &mut items).expect(&rt, "memory");
    holds(&rt, items.len() == 1, "the last one");
}

#[test]
fn a_text_of_which_each_byte_reads_far_in_vain_takes_no_square(rt: HostRuntime) {
    let tables = tables_by(&rt, BACK_UP);
    let mut text = Vec::new(rt.alloc());
    text.resize(1_000_000, b'a').expect(&rt, "memory");
    let blocks = blocks_of(&rt, &text, 65_536);
    let items = scan_blocks(rt.alloc(), &tables, &blocks).expect(&rt, "memory");
    holds(&rt, items.len() == 1_000_000, "items");
}

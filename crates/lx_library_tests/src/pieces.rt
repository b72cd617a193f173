//! Tests a file's pieces: full ones, and a last one that is marked.

ghost use Rattle.std.specs.Prelude.{◌<◌, ◌≤◌, length};
ghost use Rattle.lx_piece.specs.Cutting.{IsCutterOf};
ghost use Rattle.lx_piece.specs.Plans.{IsPlan, max_items};

use crate::asserts::{holds, same};
use crate::plans::echoes;
use lx_fixtures::{MIXED_FILES, MIXED_RULES, THREE_RULES, TWO_WORDS, last_file_first, plan_of};
use lx_piece::{Cutter, Mark, Piece, Plan};
use lx_scan::Item;
use lx_spec::Kind;
use std::process::Abort;

/// An item's kind, `None` for an Echo, its line, its first byte and its number of bytes.
type ItemParts = (Option<Kind>, u64, usize, usize);

/// A piece's file, number, mark and number of items, and the first and the last of its items.
type PieceShape = (u32, u64, Mark, usize, Option<ItemParts>, Option<ItemParts>);

fn item_parts(item: Item) -> ItemParts {
    match item {
        Item::Token {
            kind,
            line,
            start,
            len,
        } => (Some(kind), line, start, len),
        Item::Echo { line, start, len } => (None, line, start, len),
    }
}

fn item_parts_of(item: Option<&Item>) -> Option<ItemParts> {
    match item {
        Some(item) => Some(item_parts(*item)),
        None => None,
    }
}

fn shape(piece: &Piece) -> PieceShape {
    let items = piece.items.as_slice();
    let (first, last) = (item_parts_of(items.first()), item_parts_of(items.last()));
    (
        piece.file,
        piece.number,
        piece.mark,
        items.len(),
        first,
        last,
    )
}

/// Asserts that these pieces have these shapes.
fn expect_shapes(rt: &impl Abort, pieces: &[Piece], wanted: &[PieceShape]) {
    same(rt, &pieces.len(), &wanted.len());
    for (piece, wanted) in pieces.iter().zip(wanted) {
        same(rt, &shape(piece), wanted);
    }
}

/// Asserts the shapes of a plan's pieces, the last file first.
fn expect<R: Abort + AllocGlobal>(rt: &R, plan: &Plan, wanted: &[PieceShape]) {
    let pieces = last_file_first(rt.alloc(), plan).expect(rt, "memory");
    expect_shapes(rt, &pieces, wanted);
}

/// Makes the plan of such files by the tables of a specification.
fn made<R: Abort + AllocGlobal>(rt: &R, spec: &str, files: &[(&[u8], bool)], per_piece: u32) -> Plan
    requires some_files { 0 < length files.now }
    requires few_files { length files.now ≤ 65536 }
    requires some_items { 0 < per_piece }
    requires few_items { per_piece ≤ max_items }
    ensures { IsPlan result }
{
    plan_of(rt.alloc(), spec, files, per_piece).expect(rt, "memory")
}

/// Asserts the shapes of the pieces of such files by the tables of a specification.
fn expect_of<R: Abort + AllocGlobal>(
    rt: &R,
    spec: &str,
    files: &[(&[u8], bool)],
    per_piece: u32,
    wanted: &[PieceShape],
)
    requires some_files { 0 < length files.now }
    requires few_files { length files.now ≤ 65536 }
    requires some_items { 0 < per_piece }
    requires few_items { per_piece ≤ max_items }
{
    let plan = made(rt, spec, files, per_piece);
    expect(rt, &plan, wanted);
}

const ECHO: Option<Kind> = None;

const FIRST: Option<Kind> = Some(Kind::Name(0));

const SECOND: Option<Kind> = Some(Kind::Name(1));

const NUMBER: Option<Kind> = Some(Kind::Number(65));

/// Pieces of the mixed files, of at most two items. The text between `<` and `>` yields an Echo and a token, which are in two pieces.
const MIXED: &[PieceShape] = &[
    (
        4,
        0,
        Mark::Cut,
        1,
        Some((SECOND, 1, 0, 1)),
        Some((SECOND, 1, 0, 1)),
    ),
    (3, 0, Mark::Cut, 0, None, None),
    (
        2,
        0,
        Mark::More,
        2,
        Some((ECHO, 1, 0, 1)),
        Some((ECHO, 1, 1, 1)),
    ),
    (
        2,
        1,
        Mark::More,
        2,
        Some((ECHO, 2, 2, 1)),
        Some((ECHO, 2, 3, 1)),
    ),
    (
        2,
        2,
        Mark::More,
        2,
        Some((ECHO, 2, 4, 1)),
        Some((ECHO, 2, 5, 5)),
    ),
    (
        2,
        3,
        Mark::More,
        2,
        Some((NUMBER, 2, 5, 5)),
        Some((ECHO, 3, 10, 1)),
    ),
    (
        2,
        4,
        Mark::Whole,
        1,
        Some((FIRST, 4, 11, 1)),
        Some((FIRST, 4, 11, 1)),
    ),
    (1, 0, Mark::Whole, 0, None, None),
    (
        0,
        0,
        Mark::Whole,
        2,
        Some((FIRST, 1, 0, 2)),
        Some((SECOND, 1, 3, 2)),
    ),
];

#[test]
fn the_last_piece_of_a_file_is_marked(rt: HostRuntime) {
    expect_of(&rt, MIXED_RULES, MIXED_FILES.as_slice(), 2, MIXED);
}

/// Pieces of files of 256, 257, 512 and 0 Echoes.
const FULL: &[PieceShape] = &[
    (3, 0, Mark::Whole, 0, None, None),
    (
        2,
        0,
        Mark::More,
        256,
        Some((ECHO, 1, 0, 1)),
        Some((ECHO, 1, 255, 1)),
    ),
    (
        2,
        1,
        Mark::Whole,
        256,
        Some((ECHO, 1, 256, 1)),
        Some((ECHO, 1, 511, 1)),
    ),
    (
        1,
        0,
        Mark::More,
        256,
        Some((ECHO, 1, 0, 1)),
        Some((ECHO, 1, 255, 1)),
    ),
    (
        1,
        1,
        Mark::Whole,
        1,
        Some((ECHO, 1, 256, 1)),
        Some((ECHO, 1, 256, 1)),
    ),
    (
        0,
        0,
        Mark::Whole,
        256,
        Some((ECHO, 1, 0, 1)),
        Some((ECHO, 1, 255, 1)),
    ),
];

#[test]
fn cuts_files_into_full_pieces_and_a_rest(rt: HostRuntime) {
    let plan = echoes(&rt, &[256, 257, 512, 0], 256);
    expect(&rt, &plan, FULL);
}

/// Pieces of two words in a file with skipped text after them, which was read to its end.
const WHOLE_WORDS: &[PieceShape] = &[
    (
        0,
        0,
        Mark::More,
        1,
        Some((FIRST, 1, 0, 2)),
        Some((FIRST, 1, 0, 2)),
    ),
    (
        0,
        1,
        Mark::Whole,
        1,
        Some((SECOND, 1, 3, 2)),
        Some((SECOND, 1, 3, 2)),
    ),
];

/// Pieces of the same words, if the reading of the file failed.
const CUT_WORDS: &[PieceShape] = &[
    (
        0,
        0,
        Mark::More,
        1,
        Some((FIRST, 1, 0, 2)),
        Some((FIRST, 1, 0, 2)),
    ),
    (
        0,
        1,
        Mark::Cut,
        1,
        Some((SECOND, 1, 3, 2)),
        Some((SECOND, 1, 3, 2)),
    ),
];

/// Two words in a file that was read to its end, and in one that wasn't.
const WHOLE_FILE: &[(&[u8], bool)] = &[(TWO_WORDS, false)];

const CUT_FILE: &[(&[u8], bool)] = &[(TWO_WORDS, true)];

#[test]
fn the_last_piece_is_marked_though_skipped_text_follows(rt: HostRuntime) {
    expect_of(&rt, THREE_RULES, WHOLE_FILE, 1, WHOLE_WORDS);
    expect_of(&rt, THREE_RULES, CUT_FILE, 1, CUT_WORDS);
}

/// A rule whose action yields three items.
const THREE_ITEMS: &str = "%%\na { ECHO; ECHO; return A; }\n";

const TWO_MATCHES: &[PieceShape] = &[
    (
        0,
        0,
        Mark::More,
        2,
        Some((ECHO, 1, 0, 1)),
        Some((ECHO, 1, 0, 1)),
    ),
    (
        0,
        1,
        Mark::More,
        2,
        Some((FIRST, 1, 0, 1)),
        Some((ECHO, 1, 1, 1)),
    ),
    (
        0,
        2,
        Mark::Whole,
        2,
        Some((ECHO, 1, 1, 1)),
        Some((FIRST, 1, 1, 1)),
    ),
];

/// A file that they match twice.
const TWICE: &[(&[u8], bool)] = &[(b"aa", false)];

#[test]
fn the_items_of_one_action_lie_in_two_pieces(rt: HostRuntime) {
    expect_of(&rt, THREE_ITEMS, TWICE, 2, TWO_MATCHES);
}

/// Asserts that a cutter has a further piece, or that it hasn't.
fn gives<R: Abort>(rt: &R, plan: &Plan, cutter: &mut Cutter, wanted: bool)
    requires { IsCutterOf plan.now cutter.old }
    ensures { IsCutterOf plan.now cutter.new }
{
    let piece = cutter.next_piece(plan).expect(rt, "memory");
    holds(rt, piece.is_some() == wanted, 0);
}

/// Asserts that a cutter has this number of pieces, and then none, also when it is asked again.
fn ends_behind<R: Abort>(rt: &R, plan: &Plan, cutter: &mut Cutter, pieces: u32)
    requires { IsCutterOf plan.now cutter.old }
{
    for _piece in 0..pieces {
        gives(rt, plan, cutter, true);
    }
    for _time in 0..3 {
        gives(rt, plan, cutter, false);
    }
}

/// Asserts the number of pieces of a plan's first file.
fn first_ends_behind<R: Abort + AllocGlobal>(rt: &R, plan: &Plan, pieces: u32)
    requires { IsPlan plan.now }
{
    let mut cutter = Cutter::new(rt.alloc(), plan, 0);
    ends_behind(rt, plan, &mut cutter, pieces);
}

/// Asserts the number of pieces of a file of these bytes by the three rules, with one item a piece.
fn file_ends_behind<R: Abort + AllocGlobal>(rt: &R, bytes: &[u8], cut: bool, pieces: u32) {
    let plan = made(rt, THREE_RULES, &[(bytes, cut)], 1);
    first_ends_behind(rt, &plan, pieces);
}

/// Files, with their numbers of pieces of one item.
const COUNTED: &[(&[u8], u32)] = &[(b"", 1), (b"a1a", 3), (b"a1a ", 3)];

#[test]
fn behind_the_last_piece_a_cutter_gives_none(rt: HostRuntime) {
    for (bytes, pieces) in COUNTED {
        file_ends_behind(&rt, bytes, false, *pieces);
        file_ends_behind(&rt, bytes, true, *pieces);
    }
}

//! Tests the scanner over tables: items with their lines, matches and places, and tables that belong to no specification.

use crate::table_texts::{tables_by, tables_in};
use crate::texts::holds;
use lx_scan::{Item, Match, Place, next_match, scan};
use lx_spec::Kind;
use lx_tables::Tables;
use std::process::Abort;

const LINE_END: &str = "%%\nfoo return F;\nfoo$ return E;\n";

/// Rules for runs of `a` and newlines, and for single `b`s.
const TWO_LINES: &str = "%%\n[a\\n]+ return T;\nb return B;\n";

/// Items of `a`, a newline and `b`.
const TWO_TOKENS: &[Item] = &[
    Item::Token {
        kind: Kind::Name(0),
        line: 1,
        start: 0,
        len: 2,
    },
    Item::Token {
        kind: Kind::Name(1),
        line: 2,
        start: 2,
        len: 1,
    },
];

/// Items of two lines of `foo`, the second without a newline.
const TWO_ENDS: &[Item] = &[
    Item::Token {
        kind: Kind::Name(1),
        line: 1,
        start: 0,
        len: 3,
    },
    Item::Echo {
        line: 1,
        start: 3,
        len: 1,
    },
    Item::Token {
        kind: Kind::Name(0),
        line: 2,
        start: 4,
        len: 3,
    },
];

/// Asserts that a text has these items by the tables.
fn scans<R: Abort + AllocGlobal>(rt: &R, tables: &Tables, text: &[u8], wanted: &[Item]) {
    let items = scan(rt.alloc(), tables, text).expect(rt, "memory");
    holds(rt, items.as_slice() == wanted, "items");
}

/// Asserts that a text has these items by the tables of a specification.
fn scans_by<R: Abort + AllocGlobal>(rt: &R, spec: &str, text: &[u8], wanted: &[Item]) {
    let tables = tables_by(rt, spec);
    scans(rt, &tables, text, wanted);
}

#[test]
fn items_have_the_lines_on_which_they_begin(rt: HostRuntime) {
    scans_by(&rt, TWO_LINES, b"a\nb", TWO_TOKENS);
    scans_by(&rt, LINE_END, b"foo\nfoo", TWO_ENDS);
}

/// First match of two lines of `foo`.
const FOUND: Match = Match {
    rule: Some(1),
    start: 0,
    len: 3,
};

/// The place after that match.
const BEHIND: Place = Place {
    offset: 3,
    condition: 0,
    at_line_begin: false,
    line: 1,
};

/// Asserts the first match of two lines of `foo`, and that an empty text has none.
fn matches_first(rt: &impl Abort, tables: &Tables) {
    holds(rt, tables.conditions() == 1, "one condition");
    let first = next_match(tables, b"foo\nfoo", Place::begin());
    holds(rt, first == Some((FOUND, BEHIND)), "foo");
    holds(
        rt,
        next_match(tables, b"", Place::begin()).is_none(),
        "nothing",
    );
}

#[test]
fn a_match_leads_to_the_place_behind_it(rt: HostRuntime) {
    let tables = tables_by(&rt, LINE_END);
    matches_first(&rt, &tables);
}

/// Tables with a rule that ends with `$` and steps that take no newline: there is no token after a single `a`.
const MADE_UP: &str =
    "lx-tables 1\nconditions 1\nstart 0 0\nkinds 1\nkind E\nrules 1\nrule 1 k0\nstates 2\nstate - 97-97:1\nstate 0\nend\n";

/// Two bytes that no rule matches.
const TWO_ECHOES: &[Item] = &[
    Item::Echo {
        line: 1,
        start: 0,
        len: 1,
    },
    Item::Echo {
        line: 1,
        start: 1,
        len: 1,
    },
];

#[test]
fn tables_of_no_specification_are_scanned_by_to_the_end(rt: HostRuntime) {
    let tables = tables_in(&rt, MADE_UP);
    scans(&rt, &tables, b"aa", TWO_ECHOES);
}

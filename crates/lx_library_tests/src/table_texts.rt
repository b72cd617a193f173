//! Tests texts of tables that were worked out by hand: specifications print them, and tables that were read are printed again.

use crate::texts::holds;
use lx_fixtures::{NO_RULES, NO_RULES_TEXTS, THREE_RULES, THREE_RULES_TEXTS, Texts, tables_of};
use lx_tables::{TableFault, Tables};
use std::process::Abort;

const AT_LINE_END: Texts = (
    "lx-tables 1\nconditions 1\nstart 0 0\nkinds 1\nkind E\nrules 1\nrule 1 k0\nstates 3\nstate - 97-97:1\nstate - 10-10:2\nstate 0\nend\n",
    "lx-tables 2\nconditions 1\nstart 0 0\nkinds 1\nkind E\nrules 1\nrule 1 k0\nclasses 3\nclass 0-9:0 10-10:1 11-96:0 97-97:2 98-255:0\nstates 3\nstate - 2:1\nstate - 1:2\nstate 0\nend\n",
);

const AT_LINE_BEGIN: Texts = (
    "lx-tables 1\nconditions 1\nstart 0 1\nkinds 2\nkind H\nkind S\nrules 2\nrule 0 k0\nrule 0 k1\nstates 4\nstate - 35-35:2\nstate - 35-35:3\nstate 1\nstate 0\nend\n",
    "lx-tables 2\nconditions 1\nstart 0 1\nkinds 2\nkind H\nkind S\nrules 2\nrule 0 k0\nrule 0 k1\nclasses 2\nclass 0-34:0 35-35:1 36-255:0\nstates 4\nstate - 1:2\nstate - 1:3\nstate 1\nstate 0\nend\n",
);

/// Specifications with the texts of their tables.
pub(crate) const SAMPLES: &[(&str, Texts)] = &[
    (THREE_RULES, THREE_RULES_TEXTS),
    ("%%\na$ return E;\n", AT_LINE_END),
    ("%%\n^# return H;\n# return S;\n", AT_LINE_BEGIN),
    (NO_RULES, NO_RULES_TEXTS),
];

/// Returns the text of version 1, or of version 2.
fn text_of<R: Abort + AllocGlobal>(rt: &R, tables: &Tables, first: bool) -> Vec<u8> {
    let mut out = Vec::new(rt.alloc());
    let printed = if first {
        tables.print_first(&mut out)
    } else {
        tables.print(&mut out)
    };
    printed.expect(rt, "memory");
    out
}

/// Returns the text of the tables in a text, in its own version. Returns None if the text isn't that of tables.
pub(crate) fn read_text<R: Abort + AllocGlobal>(rt: &R, text: &[u8]) -> Option<Vec<u8>> {
    match Tables::read(rt.alloc(), text) {
        Ok(tables) => Some(text_of(rt, &tables, !text.starts_with(b"lx-tables 2"))),
        Err(TableFault::NoTables) => None,
        Err(TableFault::Memory) => panic!(rt; "memory"),
    }
}

/// Asserts that a text is that of tables, which is printed again, or that it isn't.
pub(crate) fn expect_read<R: Abort + AllocGlobal>(rt: &R, text: &str, accepted: bool) {
    let is_so = match read_text(rt, text.as_bytes()) {
        Some(printed) => accepted && printed.as_slice() == text.as_bytes(),
        None => !accepted,
    };
    holds(rt, is_so, text);
}

/// Asserts the text of version 1, or of version 2.
fn has_text<R: Abort + AllocGlobal>(rt: &R, tables: &Tables, first: bool, wanted: &str) {
    let printed = text_of(rt, tables, first);
    holds(rt, printed.as_slice() == wanted.as_bytes(), wanted);
}

/// Asserts that tables have these texts.
pub(crate) fn has_texts<R: Abort + AllocGlobal>(rt: &R, tables: &Tables, texts: Texts) {
    has_text(rt, tables, true, texts.0);
    has_text(rt, tables, false, texts.1);
}

/// Makes the merged tables of a specification.
pub(crate) fn tables_by<R: Abort + AllocGlobal>(rt: &R, spec: &str) -> Tables {
    tables_of(rt.alloc(), spec).expect(rt, spec)
}

/// Reads the tables in a text.
pub(crate) fn tables_in<R: Abort + AllocGlobal>(rt: &R, text: &str) -> Tables {
    Tables::read(rt.alloc(), text.as_bytes()).expect(rt, text)
}

/// Asserts that the tables in a text have these texts.
fn reads_to<R: Abort + AllocGlobal>(rt: &R, text: &str, texts: Texts) {
    let tables = tables_in(rt, text);
    has_texts(rt, &tables, texts);
}

/// Asserts that the tables of a specification have these texts.
fn makes<R: Abort + AllocGlobal>(rt: &R, spec: &str, texts: Texts) {
    let tables = tables_by(rt, spec);
    has_texts(rt, &tables, texts);
}

/// Asserts the same for the tables of a specification, and for those in both texts.
fn makes_and_reads<R: Abort + AllocGlobal>(rt: &R, spec: &str, texts: Texts) {
    makes(rt, spec, texts);
    reads_to(rt, texts.0, texts);
    reads_to(rt, texts.1, texts);
}

#[test]
fn both_texts_are_printed_and_read_byte_for_byte(rt: HostRuntime) {
    for (spec, texts) in SAMPLES {
        makes_and_reads(&rt, spec, *texts);
    }
}

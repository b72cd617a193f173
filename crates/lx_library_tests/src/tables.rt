//! Tests tables of specifications: the texts that they print, in both versions. The automata aren't merged.

use crate::table_texts::has_texts;
use lx_auto::build;
use lx_fixtures::Texts;
use lx_spec::{Spec, read_spec};
use lx_tables::Tables;
use std::process::Abort;

/// Specifications with the texts of their tables.
const ROWS: &[(&str, Texts)] = &[
    (
        "%%\n",
        (
            "lx-tables 1\nconditions 1\nstart 0 1\nkinds 0\nrules 0\nstates 2\nstate -\nstate -\nend\n",
            "lx-tables 2\nconditions 1\nstart 0 1\nkinds 0\nrules 0\nclasses 1\nclass 0-255:0\nstates 2\nstate -\nstate -\nend\n",
        ),
    ),
    (
        "%%\na$ return E;\n",
        (
            "lx-tables 1\nconditions 1\nstart 0 1\nkinds 1\nkind E\nrules 1\nrule 1 k0\nstates 4\nstate - 97-97:2\nstate - 97-97:2\nstate - 10-10:3\nstate 0\nend\n",
            "lx-tables 2\nconditions 1\nstart 0 1\nkinds 1\nkind E\nrules 1\nrule 1 k0\nclasses 3\nclass 0-9:0 10-10:1 11-96:0 97-97:2 98-255:0\nstates 4\nstate - 2:2\nstate - 2:2\nstate - 1:3\nstate 0\nend\n",
        ),
    ),
    (
        "%%\n^# return H;\n# return S;\n",
        (
            "lx-tables 1\nconditions 1\nstart 0 1\nkinds 2\nkind H\nkind S\nrules 2\nrule 0 k0\nrule 0 k1\nstates 4\nstate - 35-35:2\nstate - 35-35:3\nstate 1\nstate 0\nend\n",
            "lx-tables 2\nconditions 1\nstart 0 1\nkinds 2\nkind H\nkind S\nrules 2\nrule 0 k0\nrule 0 k1\nclasses 2\nclass 0-34:0 35-35:1 36-255:0\nstates 4\nstate - 1:2\nstate - 1:3\nstate 1\nstate 0\nend\n",
        ),
    ),
];

/// Makes the tables of a specification without merging its automaton.
fn unmerged_tables<R: Abort + AllocGlobal>(rt: &R, spec: &Spec) -> Tables {
    let automaton = build(rt.alloc(), spec).expect(rt, "built");
    Tables::of(rt.alloc(), spec, &automaton).expect(rt, "memory")
}

/// Asserts the texts of a specification's tables.
fn prints<R: Abort + AllocGlobal>(rt: &R, spec: &Spec, texts: Texts) {
    let tables = unmerged_tables(rt, spec);
    has_texts(rt, &tables, texts);
}

/// Asserts the texts of the tables of a specification's text.
fn prints_both<R: Abort + AllocGlobal>(rt: &R, spec: &str, texts: Texts) {
    let spec = read_spec(rt.alloc(), spec.as_bytes()).expect(rt, spec);
    prints(rt, &spec, texts);
}

#[test]
fn tables_print_their_two_texts(rt: HostRuntime) {
    for (spec, texts) in ROWS {
        prints_both(&rt, spec, *texts);
    }
}

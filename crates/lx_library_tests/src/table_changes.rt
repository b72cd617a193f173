//! Changes the texts of three rules in single places, and tests if the result is still a text of tables.

use crate::table_texts::expect_read;
use crate::texts::unwrap_text;
use lx_fixtures::THREE_RULES_TEXTS;
use std::process::Abort;

/// The old part of a text, the new part, and true if the result is a text of tables too.
type TextChange = (&'static str, &'static str, bool);

/// Changes of the conditions, of the kinds and of counts.
const NAMES: &[TextChange] = &[
    ("lx-tables", "lx-Tables", false),
    ("lx-tables ", "lx-tables  ", false),
    ("conditions 1", "conditions 2", false),
    ("conditions 1", "conditions 01", false),
    ("conditions 1\n", "conditions 1 \n", false),
    ("conditions 1", "conditions 4294967297", false),
    ("conditions 1", "conditions 18446744073709551617", false),
    ("conditions 1\nstart 0 0\n", "conditions 0\n", false),
    (
        "conditions 1\nstart 0 0\n",
        "conditions 2\nstart 0 0\nstart 1 2\n",
        true,
    ),
    ("start 0 0", "start 3 0", true),
    ("start 0 0", "start 0 3", true),
    ("start 0 0", "start 4 0", false),
    ("start 0 0", "start 0 4", false),
    ("start 0 0", "start 00 0", false),
    ("start 0 0", "start 0  0", false),
    ("start 0 0", "start 0\t0", false),
    ("start 0 0", "start 0 0 ", false),
    ("start 0 0", "start 0", false),
    ("start 0 0", "start - 0", false),
    ("start 0 0", "start 4294967296 0", false),
    ("start 0 0\n", "start 0 0\r\n", false),
    ("start 0 0\n", "start 0 0\n\n", false),
    ("start 0 0\n", "start 0 0\nstart 0 0\n", false),
    ("kinds 2\n", "kinds 1\n", false),
    ("kinds 2\n", "kinds 3\n", false),
    ("kinds 2\n", "kinds 3\nkind _9z\n", true),
    ("kinds 2\n", "kinds 2\nkind _9z\n", false),
    ("kind NUM", "kind _", true),
    ("kind NUM", "kind ID", false),
    ("kind NUM", "kind IDs", true),
    ("kind NUM", "kind 9", false),
    ("kind NUM", "kind ", false),
    ("kind NUM", "kind", false),
    ("kind NUM", "kind N-M", false),
    ("kind NUM", "kind N M", false),
    ("kind NUM", "kind NUM ", false),
    ("kind NUM", "Kind NUM", false),
    ("end\n", "end", false),
    ("end\n", "", false),
    ("end\n", "end\n\n", false),
    ("end\n", "end\nx", false),
    ("end\n", "end\nend\n", false),
    ("end\n", "end\r\n", false),
    ("end\n", "End\n", false),
    ("states 4", "states 5", false),
    ("states 4", "states 3", false),
    ("states 4", "states 0", false),
    ("states 4", "states 04", false),
    ("states 4", "states 4294967300", false),
    ("state -", "state 2", true),
    ("state -", "state 3", false),
    ("state -", "state 02", false),
    ("state -", "state 4294967296", false),
    ("state -", "state  -", false),
    ("state -", "state", false),
    ("state 2", "state -", true),
    ("state 2", "state 0", true),
];

/// Changes of the rules.
const RULES: &[TextChange] = &[
    ("rules 3\n", "rules 2\n", false),
    ("rules 3\n", "rules 4\n", false),
    ("rules 3\n", "rules 3\nrule 0\n", false),
    ("rules 3\n", "rules 4\nrule 0\n", true),
    ("rule 0 k0", "rule 1 k0", true),
    ("rule 0 k0", "rule 2 k0", false),
    ("rule 0 k0", "rule 00 k0", false),
    ("rule 0 k0", "rule k0", false),
    ("rule 0 k0", "rule 0 ", false),
    ("rule 0 k0", "rule 0  k0", false),
    ("rule 0 k0", "rule 0 k0 ", false),
    ("rule 0 k0", "rule 0 k1", true),
    ("rule 0 k0", "rule 0 k2", false),
    ("rule 0 k0", "rule 0 k00", false),
    ("rule 0 k0", "rule 0 k", false),
    ("rule 0 k0", "rule 0 k-1", false),
    ("rule 0 k0", "rule 0 k4294967296", false),
    ("rule 0 k0", "rule 0 k0 e", false),
    ("rule 0 k0", "rule 0 n0 k0", false),
    ("rule 0 k0", "rule 0 k0 k0", false),
    ("rule 0 k0", "rule 0 e", true),
    ("rule 0 k0", "rule 0 e0", false),
    ("rule 0 k0", "rule 0 e e b0 e n7", true),
    ("rule 0 k0", "rule 0 b0 b0", true),
    ("rule 0 k0", "rule 0 b1", false),
    ("rule 0 k0", "rule 0 b", false),
    ("rule 0 k0", "rule 0 b4294967296", false),
    ("rule 0 k0", "rule 0 x", false),
    ("rule 0 k0", "rule 0 n0", true),
    ("rule 0 k0", "rule 0 n2147483647", true),
    ("rule 0 k0", "rule 0 n2147483648", false),
    ("rule 0 k0", "rule 0 n4294967295", false),
    ("rule 0 k0", "rule 0 n4294967296", false),
    ("rule 0 k0", "rule 0 n18446744073709551616", false),
    ("rule 0 k0", "rule 0 n01", false),
    ("rule 0 k0", "rule 0 n+1", false),
    ("rule 0 k0", "rule 0 N1", false),
];

/// Changes of version 1: its ranges.
const RANGES: &[TextChange] = &[
    ("lx-tables 1", "lx-tables 2", false),
    ("lx-tables 1", "lx-tables 3", false),
    ("lx-tables 1", "lx-tables 0", false),
    ("lx-tables 1", "lx-tables 01", false),
    ("states 4", "classes 1\nclass 0-255:0\nstates 4", false),
    ("state - 10-10:1 32-32:1 48-57:2 97-122:3", "state -", true),
    ("97-122:3", "97-122:0", true),
    ("97-122:3", "97-122:4", false),
    ("97-122:3", "97-122:4294967299", false),
    ("97-122:3", "97-255:3", true),
    ("97-122:3", "97-256:3", false),
    ("97-122:3", "97-122:3 ", false),
    ("48-57:2 9", "48-57:2 58-60:2 9", false),
    ("48-57:2 9", "48-57:2 58-60:3 9", true),
    ("48-57:2 9", "48-57:2 59-60:2 9", true),
    ("48-57:2 9", "48-57:2 57-60:3 9", false),
    ("48-57:2 9", "48-57:2 48-57:2 9", false),
    ("48-57:2 97-122:3", "97-122:3 48-57:2", false),
    ("48-57:2", "57-48:2", false),
    ("10-10:1", "0-10:1", true),
    ("10-10:1", "010-10:1", false),
    ("10-10:1", "10-010:1", false),
    ("10-10:1", "10-10:01", false),
    ("10-10:1", "10:1", false),
    ("10-10:1", "10-10", false),
    ("10-10:1", "10-10:", false),
    ("10-10:1", "10-10:-", false),
    ("10-10:1", " 10-10:1", false),
    ("10-10:1", "4294967306-10:1", false),
    ("10-10:1", "10-4294967306:1", false),
];

/// Changes of version 2: its classes and entries.
const CLASSES: &[TextChange] = &[
    ("lx-tables 2", "lx-tables 1", false),
    ("classes 4", "classes 3", false),
    ("classes 4", "classes 5", false),
    ("classes 4", "classes 0", false),
    ("classes 4", "classes 04", false),
    ("classes 4", "classes 256", false),
    ("classes 4", "classes 257", false),
    ("classes 4", "classes 4294967300", false),
    (" 123-255:0", "", false),
    ("123-255:0", "123-254:0", false),
    ("123-255:0", "123-256:0", false),
    ("123-255:0", "123-255:4", false),
    ("123-255:0", "123-255:1", true),
    ("123-255:0", "123-255:0 ", false),
    ("class 0-9:0", "class 1-9:0", false),
    ("class 0-9:0", "class 00-9:0", false),
    ("class 0-9:0", "class 0-5:0 6-9:0", false),
    ("11-31:0", "11-31:2", true),
    ("11-31:0", "11-31:3", false),
    ("58-96:0 9", "58-95:0 9", false),
    ("58-96:0 9", "58-97:0 9", false),
    ("1:1 2:2", "2:2 1:1", false),
    ("1:1 2:2", "1:1 1:1 2:2", false),
    ("1:1 2:2", "1:1 1:2 2:2", false),
    ("1:1 2:2", "0:1 1:1 2:2", true),
    ("1:1 2:2", "2:2", true),
    ("1:1 2:2", "1:3 2:2", true),
    ("1:1 2:2", "1:4 2:2", false),
    ("1:1 2:2", "01:1 2:2", false),
    ("1:1 2:2", "1:01 2:2", false),
    ("1:1 2:2", "1: 2:2", false),
    ("1:1 2:2", ":1 2:2", false),
    ("1:1 2:2", "1-1:1 2:2", false),
    ("1:1 2:2", "1:4294967297 2:2", false),
    ("1:1 2:2", "4294967297:1 2:2", false),
    ("2:2 3:3", "2:2 3:3 4:1", false),
    (
        "state - 1:1 2:2 3:3\nstate 2 1:1\nstate 1 2:2\n",
        "state - 1:1 3:3\nstate 2 1:1\nstate 1\n",
        false,
    ),
    // two classes with the same steps
    (
        "classes 4\nclass 0-9:0 10-10:1 11-31:0 32-32:1 33-47:0 48-57:2 58-96:0 97-122:3 123-255:0\nstates 4\nstate - 1:1 2:2 3:3\nstate 2 1:1\nstate 1 2:2\nstate 0 3:3\n",
        "classes 5\nclass 0-9:0 10-10:1 11-31:0 32-32:2 33-47:0 48-57:3 58-96:0 97-122:4 123-255:0\nstates 4\nstate - 1:1 2:1 3:2 4:3\nstate 2 1:1 2:1\nstate 1 3:2\nstate 0 4:3\n",
        false,
    ),
    // the numbers of two classes exchanged
    (
        "class 0-9:0 10-10:1 11-31:0 32-32:1 33-47:0 48-57:2 58-96:0 97-122:3 123-255:0\nstates 4\nstate - 1:1 2:2 3:3\nstate 2 1:1\n",
        "class 0-9:1 10-10:0 11-31:1 32-32:0 33-47:1 48-57:2 58-96:1 97-122:3 123-255:1\nstates 4\nstate - 0:1 2:2 3:3\nstate 2 0:1\n",
        false,
    ),
];

/// Returns the text with the first occurrence of a part replaced.
fn replace_first<R: Abort + AllocGlobal>(rt: &R, text: &str, old: &str, new: &str) -> String {
    let (front, back) = text.split_once(old).expect(rt, old);
    unwrap_text(rt, format!(in rt.alloc(); "{front}{new}{back}"))
}

/// Asserts that a changed text is that of tables, or that it isn't.
fn reads_change<R: Abort + AllocGlobal>(rt: &R, text: &str, change: &TextChange) {
    let (old, new, accepted) = *change;
    let text = replace_first(rt, text, old, new);
    expect_read(rt, text.as_str(), accepted);
}

/// Asserts the same for each of the changes.
fn reads_changes<R: Abort + AllocGlobal>(rt: &R, text: &str, changes: &[TextChange]) {
    for change in changes {
        reads_change(rt, text, change);
    }
}

/// Asserts the same for the changes of both versions, and for these.
fn reads_all<R: Abort + AllocGlobal>(rt: &R, text: &str, own: &[TextChange]) {
    reads_changes(rt, text, NAMES);
    reads_changes(rt, text, RULES);
    reads_changes(rt, text, own);
}

#[test]
fn a_changed_text_is_read_where_it_is_a_tables_text(rt: HostRuntime) {
    let (first, second) = THREE_RULES_TEXTS;
    reads_all(&rt, first, RANGES);
    reads_all(&rt, second, CLASSES);
}

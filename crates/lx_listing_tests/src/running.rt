//! Runs the program over sources and streams of a test's own.

use crate::asserts::{same, same_bytes};
use lx_tool::{ListSources, Sources, run};
use std::io::Write;
use std::process::Abort;
use std::sync::Wait;
use std::thread::Threads;

/// Appends an argument.
fn put_word<R: Abort + AllocGlobal>(rt: &R, words: &mut Vec<String>, word: &str) {
    let word = String::from_str(rt.alloc(), word).expect(rt, "memory");
    words.push(word).expect(rt, "memory");
}

/// Returns the name of the program, and these arguments after it.
fn words_of<R: Abort + AllocGlobal>(rt: &R, words: &[&str]) -> Vec<String> {
    let mut all = Vec::new(rt.alloc());
    put_word(rt, &mut all, "lx");
    for word in words {
        put_word(rt, &mut all, word);
    }
    all
}

/// Returns the status of a run of the program with these arguments.
pub(crate) fn status_of<
    R: Abort + AllocGlobal + Threads + Wait + Sync,
    S: Sources,
    O: Write,
    E: Write,
>(rt: &R, words: &[&str], sources: &mut S, out: &mut O, err: &mut E) -> u8 {
    let words = words_of(rt, words);
    run(rt, rt.alloc(), &words, sources, out, err)
}

/// Returns the status of such a run over these files.
pub(crate) fn status_over<R: Abort + AllocGlobal + Threads + Wait + Sync, O: Write, E: Write>(
    rt: &R,
    words: &[&str],
    files: &[(&str, &[u8])],
    out: &mut O,
    err: &mut E,
) -> u8 {
    status_of(rt, words, &mut ListSources::new(files), out, err)
}

/// Arguments of a run, the files that are cut, and its status, output and lines on stderr.
pub(crate) type Row = (
    &'static [&'static str],
    &'static [&'static str],
    u8,
    &'static str,
    &'static str,
);

/// Asserts the results of a run over files, some of which are cut.
pub(crate) fn expect<R: Abort + AllocGlobal + Threads + Wait + Sync>(
    rt: &R,
    files: &[(&str, &[u8])],
    row: &Row,
) {
    let (words, cut, wanted, listing, lines) = *row;
    let mut sources = ListSources::with_cut(files, cut);
    let mut out: Vec<u8> = Vec::new(rt.alloc());
    let mut err: Vec<u8> = Vec::new(rt.alloc());
    let status = status_of(rt, words, &mut sources, &mut out, &mut err);
    same(rt, &status, &wanted);
    same_bytes(rt, out.as_slice(), listing.as_bytes(), &words);
    same_bytes(rt, err.as_slice(), lines.as_bytes(), &words);
}

/// The three rules, a specification that is rejected, and one without rules; tables of the three rules in the first version; and files.
pub(crate) const FILES: &[(&str, &[u8])] = &[
    (
        "S",
        b"%%\n[a-z]+ return ID;\n[0-9]+ return NUM;\n[ \\n]+ ;\n",
    ),
    ("refused", b"%%\na/b ;\n"),
    ("none", b"%%\n"),
    (
        "T",
        b"lx-tables 1\nconditions 1\nstart 0 0\nkinds 2\nkind ID\nkind NUM\nrules 3\nrule 0 k0\nrule 0 k1\nrule 0\nstates 4\nstate - 10-10:1 32-32:1 48-57:2 97-122:3\nstate 2 10-10:1 32-32:1\nstate 1 48-57:2\nstate 0 97-122:3\nend\n",
    ),
    (
        "no-rules",
        b"lx-tables 1\nconditions 1\nstart 0 0\nkinds 0\nrules 0\nstates 1\nstate -\nend\n",
    ),
    ("words", b"ab 12"),
    ("a", b"a"),
    ("empty", b""),
    ("lines", b"1\n2"),
    ("hi", b"hi!"),
];

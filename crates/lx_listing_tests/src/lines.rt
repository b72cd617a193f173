//! Tests both ways to make lines: placed one after the other, or field by field for long texts and for texts near the end of a file.

ghost use Rattle.std.specs.Prelude.{◌<◌, ◌≤◌, length};

use crate::asserts::same_bytes;
use crate::plans::{listing_of, made, put, put_times};
use std::process::Abort;

/// Asserts the listing of files by the rules.
fn lists<R: Abort + AllocGlobal>(rt: &R, spec: &str, files: &[(&[u8], bool)], wanted: &[u8])
    requires some_files { 0 < length files.now }
    requires few_files { length files.now ≤ 65536 }
{
    let plan = made(rt, spec, files, 256);
    let out = listing_of(rt, &plan);
    same_bytes(rt, out.as_slice(), wanted, &spec);
}

/// Rules for kinds by name and by number. Two kinds share the slot for their prefixes, and one has a name that is too long to be kept.
const FIELD_RULES: &str = "\
%%
[a-z]+  return WORD;
[0-9]+  return 300;
\"+\"   return '+';
\"!\"   return 11;
\"-\"   return A_KIND_WITH_A_NAME_THAT_IS_TOO_LONG;
\" \"+  ;
";

/// The same text at the start of a file, with more after it than is read at once, and as a whole file.
const FIELD_FILES: &[(&[u8], bool)] = &[
    (b"ab 12+!+-\\\n\x01\xE9cd                        ", false),
    (b"ab 12+!+-\\\n\x01\xE9cd", false),
];

const FIELD_LISTING: &[u8] = b"\
0 T WORD 1 0 2 ab
0 T 300 1 3 2 12
0 T 43 1 5 1 +
0 T 11 1 6 1 !
0 T 43 1 7 1 +
0 T A_KIND_WITH_A_NAME_THAT_IS_TOO_LONG 1 8 1 -
0 E - 1 9 1 \\\\
0 E - 1 10 1 \\x0A
0 E - 2 11 1 \\x01
0 E - 2 12 1 \\xE9
0 T WORD 2 13 2 cd
1 T WORD 1 0 2 ab
1 T 300 1 3 2 12
1 T 43 1 5 1 +
1 T 11 1 6 1 !
1 T 43 1 7 1 +
1 T A_KIND_WITH_A_NAME_THAT_IS_TOO_LONG 1 8 1 -
1 E - 1 9 1 \\\\
1 E - 1 10 1 \\x0A
1 E - 2 11 1 \\x01
1 E - 2 12 1 \\xE9
1 T WORD 2 13 2 cd
";

#[test]
fn lists_a_text_alike_wherever_its_file_ends(rt: HostRuntime) {
    lists(&rt, FIELD_RULES, FIELD_FILES, FIELD_LISTING);
}

/// Rules that return words and skip all else.
const WORDS: &str = "%%\n[^ \\n]+ return 1;\n[ \\n]+ ;\n";

/// Asserts the listing of a file by the rule for words.
fn lists_words<R: Abort + AllocGlobal>(rt: &R, text: &[u8], wanted: &[u8]) {
    lists(rt, WORDS, &[(text, false)], wanted);
}

/// Appends the start of the line of a word.
fn put_front<R: Abort + AllocGlobal>(
    rt: &R,
    wanted: &mut Vec<u8>,
    line: u32,
    start: usize,
    len: usize,
) {
    let front = format!(in rt.alloc(); "0 T 1 {line} {start} {len} ").expect(rt, "memory");
    put(rt, wanted, front.as_bytes());
}

/// Appends the line of the word `a`.
fn put_line<R: Abort + AllocGlobal>(rt: &R, wanted: &mut Vec<u8>, line: u32, start: usize) {
    put_front(rt, wanted, line, start, 1);
    put(rt, wanted, b"a\n");
}

#[test]
fn goes_on_with_the_digits_of_line_and_start(rt: HostRuntime) {
    let mut text = Vec::new(rt.alloc());
    let mut wanted = Vec::new(rt.alloc());
    put_times(&rt, &mut text, b"a\n", 5_100);
    for i in 0..5_100_u32 {
        put_line(&rt, &mut wanted, i + 1, i as usize * 2);
    }
    lists_words(&rt, &text, &wanted);
}

/// Lengths near those at which a text is placed in another way, or isn't placed.
const LENGTHS: &[usize] = &[1, 2, 15, 16, 17, 31, 32, 33, 96, 97, 192, 193];

/// Appends a word of `len` bytes, of which the one at `place`, if there is one, is escaped. Also appends its line.
fn put_word<R: Abort + AllocGlobal>(
    rt: &R,
    text: &mut Vec<u8>,
    wanted: &mut Vec<u8>,
    len: usize,
    place: usize,
) {
    put_front(rt, wanted, 1, text.len(), len);
    for i in 0..len {
        if i == place {
            put(rt, text, b"\\");
            put(rt, wanted, b"\\\\");
        } else {
            put(rt, text, b"a");
            put(rt, wanted, b"a");
        }
    }
    put(rt, text, b" ");
    put(rt, wanted, b"\n");
}

/// Appends four words of `len` bytes, of which the first byte, the middle one, the last and none is escaped.
fn put_words<R: Abort + AllocGlobal>(rt: &R, text: &mut Vec<u8>, wanted: &mut Vec<u8>, len: usize) {
    put_word(rt, text, wanted, len, 0);
    put_word(rt, text, wanted, len, len / 2);
    put_word(rt, text, wanted, len, len.saturating_sub(1));
    put_word(rt, text, wanted, len, len);
}

#[test]
fn escapes_a_byte_at_any_place_of_a_text(rt: HostRuntime) {
    let mut text = Vec::new(rt.alloc());
    let mut wanted = Vec::new(rt.alloc());
    for len in LENGTHS {
        put_words(&rt, &mut text, &mut wanted, *len);
    }
    lists_words(&rt, &text, &wanted);
}

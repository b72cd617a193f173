//! Finds the end of C text in a file (flex's manual, "Format of the Input File", "Actions").

ghost use Rattle.std.specs.Prelude.{◌≡◌, OnOk, is_some};
ghost use Rattle.lx_flex.specs.ConditionLists.{starts};
ghost use Rattle.lx_flex.specs.RulesSections.{IsFurther};
ghost use Rattle.lx_flex.specs.States.{left};

use crate::cursor::{TextCursor, TextRange, between, front, place_of, skip};
use crate::report::{ImportCause, ReadFault, stop};

/// The construct of C text that a byte is in.
#[derive(Clone, Copy, PartialEq, Eq)]
enum CodePlace {
    Code,
    String,
    Character,
    Comment,
}

/// The state of a scan of C text.
#[derive(Clone, Copy)]
struct Scan {
    place: CodePlace,
    /// Number of open braces. flex counts closing ones below zero too.
    open: i64,
    /// True if a backslash escapes the next byte.
    escaped: bool,
    /// Previous byte.
    before: u8,
}

/// Returns the construct after a byte of code.
fn place_after_code(before: u8, byte: u8) -> CodePlace {
    if byte == b'"' {
        CodePlace::String
    } else if byte == b'\'' {
        CodePlace::Character
    } else if byte == b'*' && before == b'/' {
        CodePlace::Comment
    } else {
        CodePlace::Code
    }
}

/// Returns the construct after a byte that isn't escaped.
fn after_byte(scan: Scan, byte: u8) -> CodePlace {
    match scan.place {
        CodePlace::Code => place_after_code(scan.before, byte),
        CodePlace::String => {
            if byte == b'"' || byte == b'\n' {
                CodePlace::Code
            } else {
                CodePlace::String
            }
        }
        CodePlace::Character => {
            if byte == b'\'' || byte == b'\n' {
                CodePlace::Code
            } else {
                CodePlace::Character
            }
        }
        CodePlace::Comment => {
            if byte == b'/' && scan.before == b'*' {
                CodePlace::Code
            } else {
                CodePlace::Comment
            }
        }
    }
}

/// Returns the state after a byte.
fn next_scan(scan: Scan, byte: u8) -> Scan {
    let quoted = scan.place == CodePlace::String || scan.place == CodePlace::Character;
    if quoted && scan.escaped {
        return Scan {
            escaped: false,
            before: byte,
            ..scan
        };
    }
    let open = if scan.place != CodePlace::Code {
        scan.open
    } else if byte == b'{' {
        scan.open.saturating_add(1)
    } else if byte == b'}' {
        scan.open.saturating_sub(1)
    } else {
        scan.open
    };
    let place = after_byte(scan, byte);
    Scan {
        place,
        open,
        escaped: quoted && byte == b'\\',
        // a `*/` or `/*` doesn't share its bytes with another one
        before: if place != scan.place { 0 } else { byte },
    }
}

/// Returns true if the action ends before this newline.
fn ends_here(scan: Scan) -> bool {
    scan.open <= 0 && scan.place != CodePlace::Comment && !scan.escaped
}

/// Returns the number of bytes of an action, up to the first line end with no brace or comment open. Returns `None` if the action isn't closed.
fn action_length(text: &[u8]) -> Option<usize> {
    let mut scan = Scan {
        place: CodePlace::Code,
        open: 0,
        escaped: false,
        before: 0,
    };
    let mut count: usize = 0;
    for byte in text {
        if *byte == b'\n' && ends_here(scan) {
            return Some(count);
        }
        scan = next_scan(scan, *byte);
        count = count.saturating_add(1);
    }
    if ends_here(scan) { Some(count) } else { None }
}

/// Takes the C text of an action, from here to its end. The next line follows.
pub(crate) fn take_action(cursor: &mut TextCursor) -> Result<TextRange, ReadFault>
    ensures { OnOk result (IsFurther (left cursor.old) (left cursor.new)) }
{
    let start = *cursor;
    let Some(length) = action_length(cursor.rest()) else {
        return stop(cursor.place(), ImportCause::NotClosed);
    };
    cursor.advance(length);
    let code = cursor.since(start);
    cursor.advance(1);
    Ok(code)
}

/// Takes the C text up to `%}`, starting after `%{`. The line after that of `%}` follows.
pub(crate) fn take_block(cursor: &mut TextCursor) -> Result<TextRange, ReadFault>
    ensures { OnOk result (IsFurther (left cursor.old) (left cursor.new)) }
{
    let start = *cursor;
    let Some(length) = place_of(cursor.rest(), b"%}") else {
        return stop(cursor.place(), ImportCause::NotClosed);
    };
    cursor.advance(length);
    let code = cursor.since(start);
    cursor.skip_line();
    Ok(code)
}

/// Takes the lines between one that begins with `%{` and one that begins with `%}`. The line after these follows.
#[tactic(auto, using(crate::proofs::Advancing::further_further))]
pub(crate) fn take_lines(cursor: &mut TextCursor) -> Result<TextRange, ReadFault>
    ensures further { OnOk result (IsFurther (left cursor.old) (left cursor.new)) }
    ensures text { OnOk result (cursor.new.text.now ≡ cursor.old.text.now) }
{
    let place = cursor.place();
    cursor.skip_line();
    let start = *cursor;
    for _ in 0..cursor.text.len() {
        if cursor.is_at_end() {
            break;
        }
        if cursor.begins_with(b"%}") {
            let code = cursor.since(start);
            cursor.skip_line();
            return Ok(code);
        }
        cursor.skip_line();
    }
    stop(place, ImportCause::NotClosed)
}

/// Takes one line with its end.
pub(crate) fn take_line(cursor: &mut TextCursor) -> TextRange
    ensures further { IsFurther (left cursor.old) (left cursor.new) }
    ensures text { cursor.new.text.now ≡ cursor.old.text.now }
{
    let start = *cursor;
    cursor.skip_line();
    cursor.since(start)
}

/// Takes a comment, starting at its `/*`, and the rest of the line on which it ends.
pub(crate) fn take_comment(cursor: &mut TextCursor) -> Result<TextRange, ReadFault>
    ensures { OnOk result (cursor.new.text.now ≡ cursor.old.text.now) }
{
    let start = *cursor;
    cursor.advance(2);
    let Some(length) = place_of(cursor.rest(), b"*/") else {
        return stop(start.place(), ImportCause::NotClosed);
    };
    cursor.advance(length.saturating_add(2));
    cursor.skip_line();
    Ok(cursor.since(start))
}

/// Returns the number of bytes up to and including the brace that closes the first one.
fn braced_length(text: &[u8]) -> Option<usize> {
    let mut open: u64 = 0;
    let mut count: usize = 0;
    for byte in text {
        count = count.saturating_add(1);
        if *byte == b'{' {
            open = open.saturating_add(1);
        } else if *byte == b'}' {
            open = open.saturating_sub(1);
            if open == 0 {
                return Some(count);
            }
        }
    }
    None
}

/// Takes the text between the brace of `%top{` and the one that closes it. The line after that follows.
pub(crate) fn take_braces(cursor: &mut TextCursor) -> Result<TextRange, ReadFault>
    ensures { OnOk result (cursor.new.text.now ≡ cursor.old.text.now) }
{
    let place = cursor.place();
    let Some(open) = place_of(cursor.line_rest(), b"{") else {
        return stop(place, ImportCause::BadDefinitionLine);
    };
    cursor.advance(open);
    let Some(length) = braced_length(cursor.rest()) else {
        return stop(place, ImportCause::NotClosed);
    };
    cursor.advance(1);
    let start = *cursor;
    cursor.advance(length.saturating_sub(2));
    let code = cursor.since(start);
    cursor.skip_line();
    Ok(code)
}

/// Strips white space at the start and at the end, including carriage returns.
pub(crate) fn tidy(text: &[u8]) -> &[u8] {
    let mut start: usize = 0;
    let mut end: usize = 0;
    let mut at: usize = 0;
    let mut met = false;
    for byte in text {
        if !met && byte.is_ascii_whitespace() {
            start = start.saturating_add(1);
        }
        at = at.saturating_add(1);
        if !byte.is_ascii_whitespace() {
            met = true;
            end = at;
        }
    }
    between(start, end, text)
}

/// Counts the lines that end before the first byte that isn't white space.
pub(crate) fn lines_before(text: &[u8]) -> u32 {
    let mut lines: u32 = 0;
    for byte in text {
        if !byte.is_ascii_whitespace() {
            break;
        }
        if *byte == b'\n' {
            lines = lines.saturating_add(1);
        }
    }
    lines
}

/// Returns the text after a mark at its start.
pub(crate) fn strip_mark<'a>(mark: &[u8], text: &'a [u8]) -> Option<&'a [u8]>
    ensures { is_some result ≡ starts mark.now text.now }
{
    if front(mark.len(), text) == mark {
        Some(skip(mark.len(), text))
    } else {
        None
    }
}

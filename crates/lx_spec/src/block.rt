//! Finds the end of an action.

ghost use Rattle.std.specs.Prelude.{◌≡◌, ◌+◌, ◌<◌, ◌≤◌, length};
ghost use Rattle.lx_spec.specs.Blocks as plain;

/// The meaning of the bytes before for the next one.
#[derive(Clone, Copy)]
pub enum Mode {
    Code,
    Slash,
    Comment,
    Star,
    LineComment,
    Quoted(u8),
    Escaped(u8),
}

/// The braces that were counted.
#[derive(Clone, Copy)]
pub struct Count {
    pub opened: usize,
    pub closed: usize,
    pub mode: Mode,
}

fn mode_after_code(c: u8) -> Mode
    ensures { result ≡ plain.behind_code c }
{
    match c {
        b'/' => Mode::Slash,
        b'"' => Mode::Quoted(b'"'),
        b'\'' => Mode::Quoted(b'\''),
        _ => Mode::Code,
    }
}

/// Returns the mode after a byte.
pub fn next_mode(mode: Mode, c: u8) -> Mode
    ensures { result ≡ plain.next_mode mode c }
{
    match mode {
        Mode::Code => mode_after_code(c),
        Mode::Slash => match c {
            b'*' => Mode::Comment,
            b'/' => Mode::LineComment,
            _ => mode_after_code(c),
        },
        Mode::Comment => if c == b'*' { Mode::Star } else { Mode::Comment },
        Mode::Star => match c {
            b'/' => Mode::Code,
            b'*' => Mode::Star,
            _ => Mode::Comment,
        },
        Mode::LineComment => Mode::LineComment,
        Mode::Quoted(end) => {
            if c == b'\\' {
                Mode::Escaped(end)
            } else if c == end {
                Mode::Code
            } else {
                Mode::Quoted(end)
            }
        }
        Mode::Escaped(end) => Mode::Quoted(end),
    }
}

/// Returns true if a brace counts in this mode.
pub fn counts(mode: Mode) -> bool
    ensures { result ≡ plain.counts mode }
{
    matches!(mode, Mode::Code | Mode::Slash)
}

/// Returns the mode after the end of a line.
pub fn mode_after_line(mode: Mode) -> Mode
    ensures { result ≡ plain.behind_line mode }
{
    match mode {
        Mode::Comment | Mode::Star => Mode::Comment,
        Mode::Code | Mode::Slash | Mode::LineComment | Mode::Quoted(_) | Mode::Escaped(_) =>
            Mode::Code,
    }
}

fn with_byte(count: Count, c: u8) -> Count
    requires opened { count.opened < 18446744073709551615 }
    requires closed { count.closed < 18446744073709551615 }
    ensures { result ≡ plain.with_byte count c }
{
    let open = counts(count.mode) && c == b'{';
    let close = counts(count.mode) && c == b'}';
    Count {
        opened: if open { count.opened + 1 } else { count.opened },
        closed: if close {
            count.closed + 1
        } else {
            count.closed
        },
        mode: next_mode(count.mode, c),
    }
}

/// Counts one more line.
pub fn with_line(count: Count, line: &[u8]) -> Count
    requires opened { count.opened + length line.now < 18446744073709551616 }
    requires closed { count.closed + length line.now < 18446744073709551616 }
    ensures value { result ≡ plain.with_line count line.now }
    ensures opened { result.opened ≤ count.opened + length line.now }
    ensures closed { result.closed ≤ count.closed + length line.now }
{
    let mut so_far = count;
    for c in line {
        so_far = with_byte(so_far, *c);
    }
    Count {
        opened: so_far.opened,
        closed: so_far.closed,
        mode: mode_after_line(so_far.mode),
    }
}

fn is_outside(mode: Mode) -> bool
    ensures { result ≡ plain.is_outside mode }
{
    !matches!(mode, Mode::Comment | Mode::Star)
}

/// Returns true if the action ends with the counted lines: no comment is open, and at least the opened braces are closed.
pub fn is_closed(count: Count) -> bool
    ensures { result ≡ plain.is_closed count }
{
    is_outside(count.mode) && count.opened <= count.closed
}

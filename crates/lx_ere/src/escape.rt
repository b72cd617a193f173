//! Reads escapes and runs of digits (POSIX.1-2017, XCU `lex`, "Regular Expressions in lex", the table of escape sequences).

ghost use Rattle.std.specs.Prelude.{◌≡◌, ◌≤◌, length};
ghost use Rattle.std.specs.Option.{option_map};
ghost use Rattle.lx_ere.specs.Escapes.{digit_of, is_digit, letter_byte};
ghost use Rattle.lx_ere.specs.Lexing.{run_len, byte_of, number_at, hexadecimal_at, escape_at};

/// Returns the value of a digit, in a base of at most 16.
pub fn digit_of(c: u8) -> u8
    ensures { result ≡ digit_of c }
{
    if c <= b'9' {
        c.saturating_sub(b'0')
    } else if c <= b'F' {
        c - (b'A' - 10)
    } else {
        c.saturating_sub(b'a' - 10)
    }
}

/// Returns true if the byte is a digit in the base.
pub fn is_digit(base: u8, c: u8) -> bool
    ensures { result ≡ is_digit base c }
{
    c.is_ascii_hexdigit() && digit_of(c) < base
}

/// Returns the number of digits at the start, at most `limit`.
#[tactic(auto, using(crate::specs::RunLaws::run_steps))]
pub fn digit_run(base: u8, limit: usize, text: &[u8]) -> usize
    ensures value { result ≡ run_len (is_digit base) limit text.now }
    ensures within { result ≤ length text.now }
{
    let mut n = 0;
    while n < limit && n < text.len() && is_digit(base, text[n]) {
        n += 1;
    }
    n
}

/// Returns the number that the digits spell, if it is a byte.
fn byte_of(base: u8, digits: &[u8]) -> Option<u8>
    requires low { 1 ≤ base }
    requires high { base ≤ 16 }
    ensures { result ≡ byte_of base digits.now }
{
    let mut value: u32 = 0;
    for digit in digits {
        if value < 256 {
            value = value * u32::from(base) + u32::from(digit_of(*digit));
        }
    }
    if value < 256 { Some(value as u8) } else { None }
}

/// Returns the byte that the first n digits spell, with the text after them.
pub fn number_at(base: u8, n: usize, text: &[u8]) -> Option<(u8, &[u8])>
    requires low { 1 ≤ base }
    requires high { base ≤ 16 }
    requires within { n ≤ length text.now }
    ensures { option_map (λ f. (f.0, f.1.now)) result ≡ number_at base n text.now }
{
    match byte_of(base, &text[..n]) {
        Some(byte) => Some((byte, &text[n..])),
        None => None,
    }
}

/// Returns the byte of a backslash with this letter.
pub fn letter_byte(c: u8) -> Option<u8>
    ensures { result ≡ letter_byte c }
{
    match c {
        b'a' => Some(7),
        b'b' => Some(8),
        b't' => Some(9),
        b'n' => Some(10),
        b'v' => Some(11),
        b'f' => Some(12),
        b'r' => Some(13),
        _ => None,
    }
}

/// Reads an escape, starting after the backslash (POSIX.1-2017, XCU `lex`, "Regular Expressions in lex", the table of escape sequences). Returns its
/// byte with the text after it. An escape has one of these forms:
/// - a letter of the table;
/// - one to three octal digits, the longest run of them;
/// - `x` and all hexadecimal digits that follow, or `x` for itself if none follows;
/// - any other byte except a newline, for itself.
///
/// Returns `None` if no escape is at the start, or if the digits spell no byte.
pub fn escape_at(text: &[u8]) -> Option<(u8, &[u8])>
    ensures { option_map (λ f. (f.0, f.1.now)) result ≡ escape_at text.now }
{
    let (first, rest) = text.split_first()?;
    let c = *first;
    if let Some(byte) = letter_byte(c) {
        Some((byte, rest))
    } else if is_digit(8, c) {
        number_at(8, digit_run(8, 3, text), text)
    } else if c == b'x' {
        hexadecimal_at(digit_run(16, rest.len(), rest), rest)
    } else if c == b'\n' {
        None
    } else {
        Some((c, rest))
    }
}

/// Returns the byte of n hexadecimal digits, or `x` itself if there are none.
fn hexadecimal_at(n: usize, text: &[u8]) -> Option<(u8, &[u8])>
    requires { n ≤ length text.now }
    ensures { option_map (λ f. (f.0, f.1.now)) result ≡ hexadecimal_at n text.now }
{
    if n == 0 {
        Some((b'x', text))
    } else {
        number_at(16, n, text)
    }
}

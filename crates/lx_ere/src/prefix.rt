//! Tests of the start of a text.

ghost use Rattle.std.specs.Prelude.{◌≡◌, ◌≤◌, length, drop};
ghost use Rattle.std.specs.Option.{option_map};
ghost use Rattle.lx_ere.specs.Brackets.{begins_with};
ghost use Rattle.lx_ere.specs.Lexing.{behind_byte, begins_pair};

/// Returns the text without its first n bytes.
pub fn skip(n: usize, text: &[u8]) -> &[u8]
    ensures { result.now ≡ drop n text.now }
{
    if n <= text.len() { &text[n..] } else { &[] }
}

/// Returns true if the text begins with the byte.
pub fn begins_with(c: u8, text: &[u8]) -> bool
    ensures { result ≡ begins_with c text.now }
{
    match text {
        [first, ..] => *first == c,
        [] => false,
    }
}

/// Returns true if the text begins with the two bytes.
pub fn begins_pair(c: u8, d: u8, text: &[u8]) -> bool
    ensures { result ≡ begins_pair c d text.now }
{
    begins_with(c, text) && begins_with(d, skip(1, text))
}

/// Returns the text after the byte, if it begins with it.
pub fn strip_byte(c: u8, text: &[u8]) -> Option<&[u8]>
    ensures { option_map (λ r. r.now) result ≡ behind_byte c text.now }
{
    let (first, rest) = text.split_first()?;
    if *first == c { Some(rest) } else { None }
}

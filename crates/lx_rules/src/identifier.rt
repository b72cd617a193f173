//! Identifiers, and the bytes of which they consist.

ghost use Rattle.std.specs.Prelude.{◌≡◌};
ghost use Rattle.std.specs.List.{list_all};
ghost use Rattle.lx_rules.specs.Identifiers as bytes;

fn is_letter(c: u8) -> bool
    ensures { result ≡ bytes.is_letter c }
{
    c.is_ascii_alphabetic()
}

/// Returns true if the byte is an ASCII digit.
pub fn is_digit(c: u8) -> bool
    ensures { result ≡ bytes.is_digit c }
{
    b'0' <= c && c <= b'9'
}

/// Returns true if the byte is an ASCII letter or digit.
pub fn is_alphanumeric(c: u8) -> bool
    ensures { result ≡ bytes.is_alphanumeric c }
{
    is_letter(c) || is_digit(c)
}

/// Returns true if the byte is an ASCII letter, a digit or `_`.
pub fn is_word_byte(c: u8) -> bool
    ensures { result ≡ bytes.is_word_byte c }
{
    is_alphanumeric(c) || c == b'_'
}

fn begins_identifier(c: u8) -> bool
    ensures { result ≡ bytes.begins_identifier c }
{
    is_letter(c) || c == b'_'
}

fn are_word_bytes(text: &[u8]) -> bool
    ensures { result ≡ list_all bytes.is_word_byte text.now }
{
    text.iter().all(|c| is_word_byte(*c))
}

/// Returns true if the text is an identifier: a letter or `_`, then letters, digits or `_`, in ASCII.
pub fn is_identifier(text: &[u8]) -> bool
    ensures { result ≡ bytes.is_identifier text.now }
{
    let Some((first, rest)) = text.split_first() else {
        return false;
    };
    begins_identifier(*first) && are_word_bytes(rest)
}

//! Identifiers: a letter or `_`, then letters, digits and `_`, of ASCII.

ghost use Rattle.std.specs.Prelude.{◌≡◌, ◌≤◌, length};
ghost use Rattle.std.specs.List.{list_all};
ghost use Rattle.lx_ere.specs.Spelling.{is_name_start, is_name_byte, is_identifier};
ghost use Rattle.lx_ere.specs.Lexing.{run_len};

/// Returns true if the byte can begin an identifier.
pub fn is_name_start(c: u8) -> bool
    ensures { result ≡ is_name_start c }
{
    c.is_ascii_alphabetic() || c == b'_'
}

/// Returns true if the byte can be in an identifier.
pub fn is_name_byte(c: u8) -> bool
    ensures { result ≡ is_name_byte c }
{
    is_name_start(c) || c.is_ascii_digit()
}

/// Returns the number of bytes at the start that can be in an identifier.
#[tactic(auto, using(crate::specs::RunLaws::run_steps))]
pub(crate) fn name_run(text: &[u8]) -> usize
    ensures value { result ≡ run_len is_name_byte (length text.now) text.now }
    ensures within { result ≤ length text.now }
{
    let mut n = 0;
    while n < text.len() && is_name_byte(text[n]) {
        n += 1;
    }
    n
}

/// Returns true if each byte can be in an identifier.
fn are_name_bytes(text: &[u8]) -> bool
    ensures { result ≡ list_all is_name_byte text.now }
{
    text.iter().all(|c| is_name_byte(*c))
}

/// Returns true if the bytes are an identifier.
pub(crate) fn is_identifier(name: &[u8]) -> bool
    ensures { result ≡ is_identifier name.now }
{
    match name.split_first() {
        Some((first, more)) => is_name_start(*first) && are_name_bytes(more),
        None => false,
    }
}

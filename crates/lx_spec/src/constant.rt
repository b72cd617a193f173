//! Decimal numbers and character constants (XCU `lex`, "Actions in lex").

ghost use Rattle.std.specs.Prelude.{◌≡◌, ◌<◌, ◌≤◌, length, IfSome};
ghost use Rattle.std.specs.Option.{option_map};
ghost use Rattle.lx_rules.specs.Limits.{returned_number_limit};
ghost use Rattle.lx_spec.specs.Constants as plain;

use lx_ere::escape::escape_at;

/// Returns the number that decimal digits spell, if it is below the limit.
pub(crate) fn decimal_below(limit: u32, digits: &[u8]) -> Option<u32>
    requires { limit ≤ returned_number_limit }
    ensures value { result ≡ plain.decimal_below limit digits.now }
    ensures below { IfSome result (λ n. n < limit) }
{
    let mut number: u64 = 0;
    for c in digits {
        number = number * 10 + c.saturating_sub(b'0') as u64;
        if number >= limit as u64 {
            return None;
        }
    }
    if number < limit as u64 {
        Some(number as u32)
    } else {
        None
    }
}

// Returns the byte that a constant encloses, and the text after it.
fn enclosed_at(text: &[u8]) -> Option<(u8, &[u8])>
    ensures value { option_map (λ r. (r.0, r.1.now)) result ≡ plain.enclosed_at text.now }
    ensures less { IfSome result (λ r. length r.1.now ≤ length text.now) }
{
    let Some((c, rest)) = text.split_first() else {
        return None;
    };
    let c = *c;
    if c == b'\\' {
        escape_at(rest)
    } else if c == b'\'' || c == b'\n' {
        None
    } else {
        Some((c, rest))
    }
}

fn skip_quote(text: &[u8]) -> Option<&[u8]>
    ensures value { option_map (λ r. r.now) result ≡ plain.behind_quote text.now }
    ensures less { IfSome result (λ r. length r.now ≤ length text.now) }
{
    match text.split_first() {
        Some((b'\'', rest)) => Some(rest),
        _ => None,
    }
}

/// Returns the byte of a constant, starting after its first `'`, and the text after it.
pub(crate) fn constant_at(text: &[u8]) -> Option<(u8, &[u8])>
    ensures value { option_map (λ r. (r.0, r.1.now)) result ≡ plain.constant_at text.now }
    ensures less { IfSome result (λ r. length r.1.now ≤ length text.now) }
{
    let Some((byte, behind)) = enclosed_at(text) else {
        return None;
    };
    match skip_quote(behind) {
        Some(rest) => Some((byte, rest)),
        None => None,
    }
}

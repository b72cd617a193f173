//! Labels: items as numbers, so that a scanner emits items without a jump on their kind.

ghost use Rattle.std.specs.Prelude.{◌≡◌, ◌<◌, Some};
ghost use Rattle.lx_tables.specs.Labels.{kind_of_label, step_of_kind, step_of_label};

use lx_rules::rule::Kind;

/// Label of an echo. Labels of tokens are greater, and 0 means no item.
pub const ECHO_LABEL: u64 = 1;

/// Returns the label of a token of a kind, or of an echo, which has none.
pub fn label_of(kind: Option<Kind>) -> u64
    ensures kind { kind_of_label result ≡ kind }
    ensures step { step_of_label result ≡ Some (step_of_kind kind) }
    ensures some { 0 < result }
{
    match kind {
        None => ECHO_LABEL,
        Some(Kind::Number(number)) => u64::from(number) * 2 + 2,
        Some(Kind::Name(place)) => u64::from(place) * 2 + 3,
    }
}

/// Returns the kind of the token with a label. An echo has none.
pub fn kind_of_label(label: u64) -> Option<Kind>
    ensures { result ≡ kind_of_label label }
{
    if label <= ECHO_LABEL {
        return None;
    }
    let number = ((label / 2 - 1) % 4_294_967_296) as u32;
    Some(if label % 2 == 0 {
        Kind::Number(number)
    } else {
        Kind::Name(number)
    })
}

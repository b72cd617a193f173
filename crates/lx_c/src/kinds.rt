//! The numbers of kinds.

ghost use Rattle.std.specs.Prelude.{◌≡◌, ◌≤◌, ◌<◌, length};
ghost use Rattle.lx_tables.specs.Model.{rule_at, kind_at};
ghost use Rattle.lx_c.specs.Numbers as kinds;
ghost use Rattle.lx_c.specs.Numbers.{max_first_kind};

use lx_rules::rule::{Kind, Step};
use lx_tables::Tables;

// Returns the number, or one more than what the step returns.
fn number_above_step(number: u64, step: Step) -> u64
    requires { number ≤ max_first_kind }
    ensures number { result ≡ kinds.above number (kinds.returned_number step) }
    ensures small { result ≤ max_first_kind }
{
    match step {
        Step::Return(Kind::Number(n)) if number <= u64::from(n) => u64::from(n) + 1,
        _ => number,
    }
}

// Returns the number, or one more than the greatest that the steps return.
fn number_above_steps(number: u64, steps: &[Step]) -> u64
    requires { number ≤ max_first_kind }
    ensures number { result ≡ kinds.above number (kinds.returned_by steps.now) }
    ensures small { result ≤ max_first_kind }
{
    let mut first = number;
    for step in steps {
        first = number_above_step(first, *step);
    }
    first
}

/// Returns the number of the first kind: 256, or one more than the greatest that an action returns.
pub fn first_kind(tables: &Tables) -> u64
    ensures number { result ≡ kinds.first_kind tables.now }
    ensures small { result ≤ max_first_kind }
{
    let mut first = 256;
    for rule in 0..tables.rules() {
        first = number_above_steps(first, tables.steps(rule));
    }
    first
}

/// Returns the name of the kind with this number, or nothing if there is none.
pub fn kind_name(tables: &Tables, kind: u32) -> &[u8]
    ensures { result.now ≡ kind_at tables.now kind }
{
    if kind < tables.kinds() {
        tables.kind(kind)
    } else {
        b""
    }
}

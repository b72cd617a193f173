//! Topics of `explain` for causes.

ghost use Rattle.std.specs.Prelude.{◌≡◌};
ghost use Rattle.lx_diagnose.specs.Causes.{code_of};
ghost use Rattle.lx_diagnose.specs.CodeWords.{word_of};

use crate::advice_of;
use crate::causes::Cause;
use crate::naming::name_of;

/// Returns the code of a cause, as it is printed.
pub fn code_word(cause: Cause) -> &'static str
    ensures { result.now ≡ word_of (code_of cause) }
{
    match cause {
        Cause::TooLong => "E01",
        Cause::NoRules(_) => "E02",
        Cause::NotClosed(_) => "E03",
        Cause::NoForm(_) => "E04",
        Cause::Twice(_) => "E05",
        Cause::TooMany(_) => "E06",
        Cause::NoReading(_) => "E10",
        Cause::Undefined(_) => "E11",
        Cause::TooDeep(_) => "E12",
        Cause::NoCondition(_) => "E13",
        Cause::NoAction(_) => "E20",
        Cause::NoNext => "E21",
        Cause::Memory => "E90",
    }
}

/// Returns the word by which `explain` knows a cause: its name, or that of its code.
pub fn topic_of(cause: Cause) -> &'static str {
    let name = name_of(cause);
    if name.is_empty() {
        code_word(cause)
    } else {
        name
    }
}

/// Returns the advice of `explain`: what to write instead.
pub fn hint(cause: Cause) -> &'static str {
    advice_of(topic_of(cause))
}

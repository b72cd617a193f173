//! The cause that says no more than its code.

ghost use Rattle.std.specs.Prelude.{◌≡◌};
ghost use Rattle.lx_diagnose.specs.Causes.{code_of};

use crate::causes::{
    ActionCause, Cause, ConditionCause, DepthCause, LimitCause, LineCause, NameCause, OpenCause,
    PatternCause, RulesCause, TwiceCause,
};
use lx_spec::Code;

/// Returns the cause of a code without further details.
pub(crate) fn general_cause(code: Code) -> Cause
    ensures { code_of result ≡ code }
{
    match code {
        Code::TooLong => Cause::TooLong,
        Code::NoRules => Cause::NoRules(RulesCause::Missing),
        Code::NotClosed => Cause::NotClosed(OpenCause::NotClosed),
        Code::NoForm => Cause::NoForm(LineCause::NoForm),
        Code::Twice => Cause::Twice(TwiceCause::Again),
        Code::TooMany => Cause::TooMany(LimitCause::Unknown),
        Code::NoReading => Cause::NoReading(PatternCause::NoReading),
        Code::Undefined => Cause::Undefined(NameCause::Unknown),
        Code::TooDeep => Cause::TooDeep(DepthCause::TooDeep),
        Code::NoCondition => Cause::NoCondition(ConditionCause::Unknown),
        Code::NoAction => Cause::NoAction(ActionCause::NoForm),
        Code::NoNext => Cause::NoNext,
        Code::Memory => Cause::Memory,
    }
}

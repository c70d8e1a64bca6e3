//! Terms that are themselves parameters, and their arguments.

ghost use Rattle.std.specs.Prelude.{◌≡◌, ◌<◌, false, ℕ, List, IsSomeAnd, IfOk, IfErr, MatchOption, Some};
ghost use Rattle.tt_kinds.specs.Label.{const_sort, type_sort};
ghost use Rattle.tt_kinds.specs.Argument.{same_sort};
ghost use Rattle.tt_kinds.specs.declared.table.Table.TheVariants.{Types, Consts};
ghost use Rattle.tt_interner.specs.Rows.{size, meaning};
ghost use Rattle.tt_kinds.specs.Param.{IsParam};
ghost use Rattle.tt_calls.specs.Told.{Told, told, IsOwnedAnswer};
ghost use Rattle.tt_calls.specs.Means.{as_term, told_argument, IsParameter, IsParameterOf};
ghost use Rattle.type_terms.specs.Parameters.{parameter_index, parameter_sort, term_arg, IsArgumentAt, LacksArgument};

use tt_calls::answers::lookup::answer_at;
use tt_calls::{Answer, ArgCall};
use tt_index::Refusal;
use tt_interner::{InternedKind, Interner};
use tt_kinds::{Const, ConstKind, Ty, TyKind};

/// A type parameter or a constant parameter, by its index.
#[derive(Clone, Copy, Drop)]
pub enum Parameter {
    Type(u32),
    Const(u32),
}

/// Returns the parameter that the answer's term is, if it is one.
pub fn parameter_of(cx: &Interner, answer: &Answer) -> Option<Parameter>
    requires { IsOwnedAnswer cx.now.rows answer.now }
    ensures { MatchOption
        result
        (IsSomeAnd (as_term (Some (told cx.now.rows answer.now))) IsParameter → ⊥)
        (λ p. IsSomeAnd
        (as_term (Some (told cx.now.rows answer.now)))
        (IsParameterOf (parameter_sort p) (parameter_index p))) }
{
    match answer {
        Answer::Ty(ty) => type_parameter(cx, *ty),
        Answer::Const(constant) => const_parameter(cx, *constant),
        _ => None,
    }
}

// Returns the parameter that the type is, if it is one.
fn type_parameter(cx: &Interner, ty: Ty) -> Option<Parameter>
    requires { ty.number < size cx.now.rows Types }
    ensures { MatchOption
        result
        ((i : ℕ) → IsParam type_sort i (meaning cx.now.rows Types ty.number) → ⊥)
        (λ p. (parameter_sort p ≡ type_sort)
        × IsParam type_sort (parameter_index p) (meaning cx.now.rows Types ty.number)) }
{
    cx.are_rows();
    match ty.kind(cx) {
        TyKind::Param(parameter) => Some(Parameter::Type(parameter.index)),
        _ => None,
    }
}

// Returns the parameter that the constant is, if it is one.
fn const_parameter(cx: &Interner, constant: Const) -> Option<Parameter>
    requires { constant.number < size cx.now.rows Consts }
    ensures { MatchOption
        result
        ((i : ℕ) → IsParam const_sort i (meaning cx.now.rows Consts constant.number) → ⊥)
        (λ p. (parameter_sort p ≡ const_sort)
        × IsParam const_sort (parameter_index p) (meaning cx.now.rows Consts constant.number)) }
{
    cx.are_rows();
    match constant.kind(cx) {
        ConstKind::Param(parameter) => Some(Parameter::Const(parameter.index)),
        _ => None,
    }
}

/// Returns the term that the arguments give for the parameter.
///
/// Refused with `NoArguments`, `ArgOutOfRange` or `ArgKind` if the arguments have none for the parameter, and with
/// `NoSuchAnswer` if the argument names an absent answer.
pub fn argument_for(
    earlier: &[Answer],
    args: &[ArgCall],
    parameter: Parameter,
) -> Result<Answer, Refusal>
    ensures ok { IfOk result (IsArgumentAt earlier.now args.now parameter) }
    ensures err { IfErr result (LacksArgument earlier.now args.now parameter) }
{
    if args.is_empty() {
        return Err(Refusal::NoArguments);
    }
    let index = index_of(parameter);
    match args.get(index as usize) {
        None => Err(Refusal::ArgOutOfRange { index }),
        Some(arg) => match position_in(arg, parameter) {
            Some(position) => {
                let answer = answer_at(earlier, position)?;
                Ok(*answer)
            }
            None => Err(Refusal::ArgKind { index }),
        },
    }
}

// Returns the parameter's index.
fn index_of(parameter: Parameter) -> u32
    ensures { result ≡ parameter_index parameter }
{
    match parameter {
        Parameter::Type(index) | Parameter::Const(index) => index,
    }
}

// Returns the position that the argument names, if it is of the parameter's sort.
fn position_in(arg: &ArgCall, parameter: Parameter) -> Option<u32>
    ensures { MatchOption
        result
        ((earlier : List Told) → same_sort (parameter_sort parameter) (told_argument earlier arg.now).sort ≡ false)
        (λ position. arg.now ≡ term_arg parameter position) }
{
    match parameter {
        Parameter::Type(_) => match arg {
            ArgCall::Type(position) => Some(*position),
            ArgCall::Lifetime(_) | ArgCall::Const(_) => None,
        },
        Parameter::Const(_) => match arg {
            ArgCall::Const(position) => Some(*position),
            ArgCall::Lifetime(_) | ArgCall::Type(_) => None,
        },
    }
}

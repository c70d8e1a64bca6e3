//! Building predicates.

ghost use Rattle.std.specs.Prelude.{◌≡◌, ℕ, List};
ghost use Rattle.tt_kinds.specs.Kinds.{clause_form, record_shape, predicate_kind_shape};
ghost use Rattle.tt_interner.specs.Rows.{Row};
ghost use Rattle.tt_interner.specs.Stored.{Extends};
ghost use Rattle.tt_calls.specs.declared.call.Call.TheVariants.{Predicate as BuildsPredicate};
ghost use Rattle.tt_calls.specs.CallForm.{predicate_ids, predicate_call_form, predicate_record, clause_record};
ghost use Rattle.tt_calls.specs.Told.{told_all, AreOwnedAnswers};
ghost use Rattle.tt_calls.specs.Means.{number_at, AreTerms};
ghost use Rattle.tt_calls.specs.Build.{MayAnswerCall};
ghost use Rattle.tt_calls.specs.Parts.{
  any_ids,
  named_parts,
  named_text,
  record_text,
  built_record,
  built_shape,
  AreOfSorts,
  IsInnerLabel,
  IsKindForm,
};

use crate::answer::Answer;
use crate::answers::ids::{def_at, trait_at};
use crate::build::parts::{Built, PartCall, PartsCall, build};
use crate::call::{ClauseCall, PredicateCall, PredicateKindCall};
use tt_index::Refusal;
use tt_interner::Interner;
use tt_kinds::{
    AliasTerm, Binder, ClauseKind, CoercePredicate, HostEffectPredicate, NormalizesTo,
    OutlivesPredicate, Parts, PredicateKind, ProjectionPredicate, SubtypePredicate, TraitPredicate,
    TraitRef,
};

/// Builds the predicate of the call from the earlier answers. The ids that the call names have to be there;
/// [`call_is_declared`](crate::answers::ids::call_is_declared) tests this.
pub fn build_predicate(
    cx: &mut Interner,
    earlier: &[Answer],
    call: &PredicateCall,
) -> Result<Answer, Refusal>
    requires { AreOwnedAnswers cx.old.rows earlier.now }
    ensures extends { Extends cx.old cx.new }
    ensures answers { AreTerms (told_all cx.old.rows earlier.now) (predicate_ids call.now)
        → MayAnswerCall cx.old cx.new (told_all cx.old.rows earlier.now) (BuildsPredicate call.now) result }
{
    let vars = Some(call.vars.as_slice());
    match build(
        cx,
        earlier,
        predicate_parts(&call.kind),
        vars,
        predicate_text(&call.kind),
    ) {
        Ok(built) => {
            // Each row is added once, so a predicate that is stored is found.
            cx.are_rows();
            let predicate = cx.mk_predicate(predicate_kind(earlier, call, &built))?;
            Ok(Answer::Predicate(predicate))
        }
        Err(refusal) => {
            cx.are_rows();
            Err(refusal)
        }
    }
}

// Returns what takes the places of the predicate's children.
fn predicate_parts<'a>(call: &'a PredicateKindCall) -> PartsCall<'a>
    ensures { (ids : ℕ → ℕ) → named_parts result ≡ (predicate_record ids call.now).parts }
{
    match call {
        PredicateKindCall::Clause(clause) => clause_parts(clause),
        PredicateKindCall::Subtype { a, b, .. } | PredicateKindCall::Coerce(a, b) => {
            PartsCall::Two(PartCall::Ty(*a), PartCall::Ty(*b))
        }
        PredicateKindCall::ConstEquate(a, b) => {
            PartsCall::Two(PartCall::Const(*a), PartCall::Const(*b))
        }
        PredicateKindCall::NormalizesTo(_, args, term) => {
            PartsCall::Two(PartCall::Args(args.as_slice()), PartCall::of_term(*term))
        }
        PredicateKindCall::AliasRelate(a, b, _) => {
            PartsCall::Two(PartCall::of_term(*a), PartCall::of_term(*b))
        }
        PredicateKindCall::DynCompatible(_) | PredicateKindCall::Ambiguous => PartsCall::None,
    }
}

// Returns what takes the places of the clause's children.
fn clause_parts<'a>(call: &'a ClauseCall) -> PartsCall<'a>
    ensures { (ids : ℕ → ℕ) → named_parts result ≡ (clause_record ids call.now).parts }
{
    match call {
        ClauseCall::Trait(_, args) | ClauseCall::HostEffect(_, args, _) => {
            PartsCall::One(PartCall::Args(args.as_slice()))
        }
        ClauseCall::RegionOutlives(longer, shorter) => {
            PartsCall::Two(PartCall::Region(longer), PartCall::Region(shorter))
        }
        ClauseCall::TypeOutlives(ty, region) => {
            PartsCall::Two(PartCall::Ty(*ty), PartCall::Region(region))
        }
        ClauseCall::Projection(_, args, term) => {
            PartsCall::Two(PartCall::Args(args.as_slice()), PartCall::of_term(*term))
        }
        ClauseCall::ConstArgHasType(constant, ty) => {
            PartsCall::Two(PartCall::Const(*constant), PartCall::Ty(*ty))
        }
        ClauseCall::WellFormed(term) => PartsCall::One(PartCall::of_term(*term)),
        ClauseCall::ConstEvaluatable(constant) => PartsCall::One(PartCall::Const(*constant)),
        ClauseCall::UnstableFeature(_) => PartsCall::None,
    }
}

// Returns the name in the predicate, if there is one.
fn predicate_text<'a>(call: &'a PredicateKindCall) -> Option<&'a str>
    ensures { (ids : ℕ → ℕ) → named_text result ≡ record_text (predicate_record ids call.now).label }
{
    match call {
        PredicateKindCall::Clause(ClauseCall::UnstableFeature(name)) => Some(name.as_str()),
        _ => None,
    }
}

// Returns the kind of the predicate under its binder, made of what was built.
fn predicate_kind(earlier: &[Answer], call: &PredicateCall, built: &Built) -> Binder<PredicateKind>
    requires { AreOfSorts (predicate_record any_ids call.now.kind).parts built.now.parts }
    ensures kind { (rows : List Row) → predicate_kind_shape result
        ≡ built_shape (predicate_call_form (number_at (told_all rows earlier.now)) call.now) built.now }
    ensures form { (ids : ℕ → ℕ) → IsKindForm (predicate_call_form ids call.now) }
{
    let Parts { first, second } = built.parts;
    let vars = built.vars;
    match &call.kind {
        PredicateKindCall::Clause(clause) => {
            let kind = PredicateKind::Clause(clause_kind(earlier, clause, built));
            Binder::bind_with_vars(kind, vars)
        }
        PredicateKindCall::DynCompatible(position) => {
            let kind = PredicateKind::DynCompatible(trait_at(earlier, *position));
            Binder::bind_with_vars(kind, vars)
        }
        PredicateKindCall::Subtype { a_is_expected, .. } => {
            let kind = PredicateKind::Subtype(SubtypePredicate {
                a_is_expected: *a_is_expected,
                a: first.handle(),
                b: second.handle(),
            });
            Binder::bind_with_vars(kind, vars)
        }
        PredicateKindCall::Coerce(_, _) => {
            let kind = PredicateKind::Coerce(CoercePredicate {
                a: first.handle(),
                b: second.handle(),
            });
            Binder::bind_with_vars(kind, vars)
        }
        PredicateKindCall::ConstEquate(_, _) => {
            let kind = PredicateKind::ConstEquate(first.handle(), second.handle());
            Binder::bind_with_vars(kind, vars)
        }
        PredicateKindCall::Ambiguous => Binder::bind_with_vars(PredicateKind::Ambiguous, vars),
        PredicateKindCall::NormalizesTo(position, _, _) => {
            let alias = AliasTerm {
                args: first.handle(),
                def_id: def_at(earlier, *position),
            };
            let term = second.term();
            Binder::bind_with_vars(
                PredicateKind::NormalizesTo(NormalizesTo { alias, term }),
                vars,
            )
        }
        PredicateKindCall::AliasRelate(_, _, direction) => {
            let kind = PredicateKind::AliasRelate(first.term(), second.term(), *direction);
            Binder::bind_with_vars(kind, vars)
        }
    }
}

// Returns the kind of the clause, made of what was built.
fn clause_kind(earlier: &[Answer], call: &ClauseCall, built: &Built) -> ClauseKind
    requires { AreOfSorts (clause_record any_ids call.now).parts built.now.parts }
    ensures kind { (rows : List Row) → record_shape (clause_form result)
        ≡ built_record (clause_record (number_at (told_all rows earlier.now)) call.now) built.now }
    ensures label { (ids : ℕ → ℕ) → IsInnerLabel (clause_record ids call.now).label }
{
    let Parts { first, second } = built.parts;
    match call {
        ClauseCall::Trait(position, _) => {
            let trait_ref = TraitRef {
                def_id: trait_at(earlier, *position),
                args: first.handle(),
            };
            ClauseKind::Trait(TraitPredicate { trait_ref })
        }
        ClauseCall::RegionOutlives(_, _) => {
            ClauseKind::RegionOutlives(OutlivesPredicate(first.region(), second.region()))
        }
        ClauseCall::TypeOutlives(_, _) => {
            ClauseKind::TypeOutlives(OutlivesPredicate(first.handle(), second.region()))
        }
        ClauseCall::Projection(position, _, _) => {
            let projection_term = AliasTerm {
                args: first.handle(),
                def_id: def_at(earlier, *position),
            };
            let term = second.term();
            ClauseKind::Projection(ProjectionPredicate {
                projection_term,
                term,
            })
        }
        ClauseCall::ConstArgHasType(_, _) => {
            ClauseKind::ConstArgHasType(first.handle(), second.handle())
        }
        ClauseCall::WellFormed(_) => ClauseKind::WellFormed(first.term()),
        ClauseCall::ConstEvaluatable(_) => ClauseKind::ConstEvaluatable(first.handle()),
        ClauseCall::HostEffect(position, _, constness) => {
            let trait_ref = TraitRef {
                def_id: trait_at(earlier, *position),
                args: first.handle(),
            };
            ClauseKind::HostEffect(HostEffectPredicate {
                trait_ref,
                constness: *constness,
            })
        }
        ClauseCall::UnstableFeature(_) => ClauseKind::UnstableFeature(built.name),
    }
}

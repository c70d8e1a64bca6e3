//! Lines that build predicates, and the predicates of trait objects.

use crate::arguments::arguments;
use crate::regions::{region, variables};
use crate::words::{Unread, Words};
use std::alloc::Global;
use tt_calls::{
    Call, ClauseCall, ExistentialCall, ExistentialKindCall, PredicateCall, PredicateKindCall,
};
use tt_kinds::{AliasRelationDirection, BoundConstness};

/// Returns the predicate of the words, the first of which are the variables of its binder.
pub fn predicate(alloc: Global, words: &mut Words) -> Result<Call, Unread> {
    let vars = variables(alloc, words.word())?;
    let first = words.word();
    let kind = match clause(alloc, first, words)? {
        Some(clause) => PredicateKindCall::Clause(clause),
        None => other_kind(alloc, first, words)?,
    };
    Ok(Call::Predicate(PredicateCall { kind, vars }))
}

// Returns the clause of this first word and the further words, if it is one.
fn clause(alloc: Global, first: &str, words: &mut Words) -> Result<Option<ClauseCall>, Unread> {
    let clause = match first {
        "trait" => ClauseCall::Trait(words.position()?, arguments(alloc, words)?),
        "region_outlives" => {
            ClauseCall::RegionOutlives(region(alloc, words.word())?, region(alloc, words.word())?)
        }
        "type_outlives" => {
            ClauseCall::TypeOutlives(words.position()?, region(alloc, words.word())?)
        }
        "projection" => {
            let item = words.position()?;
            let term = words.term()?;
            ClauseCall::Projection(item, arguments(alloc, words)?, term)
        }
        "const_arg_has_type" => {
            ClauseCall::ConstArgHasType(words.position()?, words.position()?)
        }
        "well_formed" => ClauseCall::WellFormed(words.term()?),
        "const_evaluatable" => ClauseCall::ConstEvaluatable(words.position()?),
        "host_effect" => {
            let item = words.position()?;
            ClauseCall::HostEffect(item, arguments(alloc, words)?, BoundConstness::Const)
        }
        "unstable_feature" => {
            ClauseCall::UnstableFeature(String::from_str(alloc, words.word())?)
        }
        _ => return Ok(None),
    };
    Ok(Some(clause))
}

// Returns the kind of a predicate that is no clause.
fn other_kind(alloc: Global, first: &str, words: &mut Words) -> Result<PredicateKindCall, Unread> {
    match first {
        "dyn_compatible" => Ok(PredicateKindCall::DynCompatible(words.position()?)),
        "subtype" => Ok(PredicateKindCall::Subtype {
            a_is_expected: true,
            a: words.position()?,
            b: words.position()?,
        }),
        "coerce" => Ok(PredicateKindCall::Coerce(words.position()?, words.position()?)),
        "const_equate" => Ok(PredicateKindCall::ConstEquate(words.position()?, words.position()?)),
        "ambiguous" => Ok(PredicateKindCall::Ambiguous),
        "normalizes_to" => {
            let item = words.position()?;
            let term = words.term()?;
            Ok(PredicateKindCall::NormalizesTo(item, arguments(alloc, words)?, term))
        }
        "alias_relate" => {
            let first = words.term()?;
            let direction = AliasRelationDirection::Equate;
            Ok(PredicateKindCall::AliasRelate(first, words.term()?, direction))
        }
        _ => Err(Unread::Unknown),
    }
}

/// Returns the predicates of a trait object, of all further words, separated by ` + `.
pub fn existentials(alloc: Global, words: &Words) -> Result<Vec<ExistentialCall>, Unread> {
    let mut existentials = Vec::new(alloc);
    for part in words.rest().split(" + ") {
        if !part.is_empty() {
            existentials.push(existential(alloc, &mut Words::new(part))?)?;
        }
    }
    Ok(existentials)
}

// Returns a predicate of a trait object, the first word of which are the variables of its binder.
fn existential(alloc: Global, words: &mut Words) -> Result<ExistentialCall, Unread> {
    let vars = variables(alloc, words.word())?;
    let kind = match words.word() {
        "trait" => ExistentialKindCall::Trait(words.position()?, arguments(alloc, words)?),
        "projection" => {
            let item = words.position()?;
            let term = words.term()?;
            ExistentialKindCall::Projection(item, arguments(alloc, words)?, term)
        }
        "auto_trait" => ExistentialKindCall::AutoTrait(words.position()?),
        _ => return Err(Unread::Unknown),
    };
    Ok(ExistentialCall { kind, vars })
}

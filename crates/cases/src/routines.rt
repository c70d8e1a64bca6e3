//! What is checked by a function of its own, named by a word.
//!
//! Such a function answers whether what it checks holds, on the interner of the case. It is called again after a
//! refusal for want of memory, and at the end of the case.

mod built;
mod canonical_forms;
mod copies;
mod declared;
mod derivations;
mod folders;
mod iterators;
mod lists;
mod names;
mod overlaps;
mod refutations;
mod replacers;
mod unification;
mod validation;

use type_terms::{Interner, Refusal};

/// A check by a function.
#[derive(Clone, Copy, PartialEq, Eq)]
pub enum Routine {
    /// The list of an iterator's types is the list of their slice.
    TypesOfAnIterator,
    /// The list of an iterator's arguments is the list of their slice.
    ArgumentsOfAnIterator,
    /// A list of existential predicates is the same if it is built at once.
    ExistentialsAtOnce,
    /// An item is pushed onto a list by index, or the list is as it was.
    ItemsArePushed,
    /// Copies of lists and other values are equal to them.
    ValuesAreCopied,
    /// The items of small vectors and of sets are visited.
    ItemsAreVisited,
    /// Each text has its symbol.
    TextsAreSymbols,
    /// Bound regions are called by their declarations' names.
    RegionsAreCalled,
    /// Each declaration has its id, even if names repeat.
    IdsAreNew,
    /// The items of a declared list are instantiated from both ends, and a refused one is used up.
    ItemsAreInstantiated,
    /// All items of an iterator are handed to a closure, unless one of them is an error.
    ItemsAreCollected,
    /// Variables agree with their binder's list, or don't.
    VariablesAreValidated,
    /// Two types with variables are made equal.
    TypesAreUnified,
    /// A log follows from two implementations.
    DerivationsAreChecked,
    /// A goal is answered with a log that follows.
    DerivationsAreFound,
    /// A goal is answered with a refutation, which the check accepts.
    RefutationsAreFound,
    /// Two implementations apply to a goal.
    OverlapsAreFound,
    /// Types that differ in the names of their variables alone have one canonical form.
    CanonicalFormsAreExact,
    /// Each call declares its sort by its name, and once more by another id.
    SortsAreDeclared,
    /// A parameter, a reference and a tuple are what the call for all types builds.
    TypesAreBuilt,
    /// A list of assumptions is instantiated and moved into binders as its items are.
    AssumptionsAreFolded,
    /// Triples and results are moved into binders and instantiated.
    ValuesAreMoved,
    /// A folder puts a type into a slice after its contents.
    RebuiltTypesAreSliced,
    /// A folder replaces a type before its contents, and its own error ends the fold.
    FoldsEndAtErrors,
    /// Types are replaced by slices, and regions by a parameter.
    ReplacementsAreBuilt,
    /// A closure answers variables of canonical queries, and of indices near the greatest.
    RegionsAreAnswered,
    /// The values behind pointers are instantiated from both ends.
    PointedItemsAreInstantiated,
}

impl Routine {
    /// Returns the routine of this name.
    pub fn of(word: &str) -> Option<Routine> {
        match word {
            "types_of_an_iterator" => Some(Routine::TypesOfAnIterator),
            "arguments_of_an_iterator" => Some(Routine::ArgumentsOfAnIterator),
            "existentials_at_once" => Some(Routine::ExistentialsAtOnce),
            "items_are_pushed" => Some(Routine::ItemsArePushed),
            "values_are_copied" => Some(Routine::ValuesAreCopied),
            "items_are_visited" => Some(Routine::ItemsAreVisited),
            "texts_are_symbols" => Some(Routine::TextsAreSymbols),
            "regions_are_called" => Some(Routine::RegionsAreCalled),
            "ids_are_new" => Some(Routine::IdsAreNew),
            "items_are_instantiated" => Some(Routine::ItemsAreInstantiated),
            "items_are_collected" => Some(Routine::ItemsAreCollected),
            "variables_are_validated" => Some(Routine::VariablesAreValidated),
            "types_are_unified" => Some(Routine::TypesAreUnified),
            "derivations_are_checked" => Some(Routine::DerivationsAreChecked),
            "derivations_are_found" => Some(Routine::DerivationsAreFound),
            "refutations_are_found" => Some(Routine::RefutationsAreFound),
            "overlaps_are_found" => Some(Routine::OverlapsAreFound),
            "canonical_forms_are_exact" => Some(Routine::CanonicalFormsAreExact),
            "sorts_are_declared" => Some(Routine::SortsAreDeclared),
            "types_are_built" => Some(Routine::TypesAreBuilt),
            "assumptions_are_folded" => Some(Routine::AssumptionsAreFolded),
            "values_are_moved" => Some(Routine::ValuesAreMoved),
            "rebuilt_types_are_sliced" => Some(Routine::RebuiltTypesAreSliced),
            "folds_end_at_errors" => Some(Routine::FoldsEndAtErrors),
            "replacements_are_built" => Some(Routine::ReplacementsAreBuilt),
            "regions_are_answered" => Some(Routine::RegionsAreAnswered),
            "pointed_items_are_instantiated" => Some(Routine::PointedItemsAreInstantiated),
            _ => None,
        }
    }

    /// Returns whether what the routine checks holds.
    pub fn holds(self, cx: &mut Interner) -> Result<bool, Refusal> {
        match self {
            Routine::TypesOfAnIterator => lists::types_of_an_iterator(cx),
            Routine::ArgumentsOfAnIterator => lists::arguments_of_an_iterator(cx),
            Routine::ExistentialsAtOnce => lists::existentials_at_once(cx),
            Routine::ItemsArePushed => lists::items_are_pushed(cx),
            Routine::ValuesAreCopied => copies::values_are_copied(cx),
            Routine::ItemsAreVisited => copies::items_are_visited(cx),
            Routine::TextsAreSymbols => names::texts_are_symbols(cx),
            Routine::RegionsAreCalled => names::regions_are_called(cx),
            Routine::IdsAreNew => names::ids_are_new(cx),
            Routine::ItemsAreInstantiated => iterators::items_are_instantiated(cx),
            Routine::ItemsAreCollected => iterators::items_are_collected(cx),
            Routine::VariablesAreValidated => validation::variables_are_validated(cx),
            Routine::TypesAreUnified => unification::types_are_unified(cx),
            Routine::DerivationsAreChecked => derivations::derivations_are_checked(cx),
            Routine::DerivationsAreFound => derivations::derivations_are_found(cx),
            Routine::RefutationsAreFound => refutations::refutations_are_found(cx),
            Routine::OverlapsAreFound => overlaps::overlaps_are_found(cx),
            Routine::CanonicalFormsAreExact => canonical_forms::canonical_forms_are_exact(cx),
            Routine::SortsAreDeclared => declared::sorts_are_declared(cx),
            Routine::TypesAreBuilt => built::types_are_built(cx),
            Routine::AssumptionsAreFolded => built::assumptions_are_folded(cx),
            Routine::ValuesAreMoved => built::values_are_moved(cx),
            Routine::RebuiltTypesAreSliced => folders::rebuilt_types_are_sliced(cx),
            Routine::FoldsEndAtErrors => folders::folds_end_at_errors(cx),
            Routine::ReplacementsAreBuilt => replacers::replacements_are_built(cx),
            Routine::RegionsAreAnswered => replacers::regions_are_answered(cx),
            Routine::PointedItemsAreInstantiated => iterators::pointed_items_are_instantiated(cx),
        }
    }
}

//! The marks of the handles whose test is one of their number.

use tt_kinds::handle::{
    ArgListRow, ClauseListRow, ConstListRow, ConstRow, ExistentialListRow, ExistentialRow,
    PatternListRow, PatternRow, PredicateRow, TypeListRow, TypeRow,
};
use tt_visit::IsWalked;

/// A mark of the handles that are of an interner if it has a row of their number.
pub trait IsTested: IsWalked {}

impl IsTested for TypeRow {}

impl IsTested for ConstRow {}

impl IsTested for PatternRow {}

impl IsTested for PredicateRow {}

impl IsTested for ExistentialRow {}

impl IsTested for ClauseListRow {}

impl IsTested for TypeListRow {}

impl IsTested for ConstListRow {}

impl IsTested for ArgListRow {}

impl IsTested for PatternListRow {}

impl IsTested for ExistentialListRow {}

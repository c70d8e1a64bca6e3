//! Calls of the library as values: what they build, their answers, and the lines of scripts.
#![tactic(auto)]

pub mod answer;
pub mod answers;
pub mod build;
pub mod call;
mod equality;
pub mod script;

pub use answer::Answer;
pub use call::{
    AliasCall, ArgCall, BoundTyKindCall, Call, ClauseCall, ConstCall, DeclarationKindCall,
    DeclareCall, ExistentialCall, ExistentialKindCall, ItemCall, PatCall, Positions, PredicateCall,
    PredicateKindCall, RegionCall, RegionNameCall, TermCall, TyCall, ValTreeCall, VariableCall,
};
pub use equality::equal_answers_are_same;
pub use script::fault::Fault;
pub use script::line::parse_line;

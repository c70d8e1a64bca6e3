//! Running lists of calls, and scripts.

mod answers;
pub mod runner;
pub mod script;

pub use runner::{answer_next, run_calls};
pub use script::run_script;
pub use tt_calls::{
    AliasCall, Answer, ArgCall, BoundTyKindCall, Call, ClauseCall, ConstCall, DeclarationKindCall,
    DeclareCall, ExistentialCall, ExistentialKindCall, Fault, ItemCall, PatCall, Positions,
    PredicateCall, PredicateKindCall, RegionCall, RegionNameCall, TermCall, TyCall, ValTreeCall,
    VariableCall, answer, call, parse_line,
};

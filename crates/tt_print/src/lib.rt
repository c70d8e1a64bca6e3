//! The texts of terms.
#![tactic(auto)]

pub mod ir_print;

pub use ir_print::IrPrint;

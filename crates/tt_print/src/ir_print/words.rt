//! Words: the names of numeric types, and the words of a function besides its types.

ghost use Rattle.std.specs.Prelude.{◌≡◌};
ghost use Rattle.tt_print.specs.Text.{abi_words, bound_words, float_name, int_name, safety_word, uint_name};

use tt_index::{ExternAbi, FloatTy, IntTy, Safety, UintTy};
use tt_kinds::BoundConstness;

/// Returns the name of a signed integer type.
pub(crate) fn int_name(ty: IntTy) -> &'static str
    ensures { result.now ≡ int_name ty }
{
    match ty {
        IntTy::Isize => "isize",
        IntTy::I8 => "i8",
        IntTy::I16 => "i16",
        IntTy::I32 => "i32",
        IntTy::I64 => "i64",
        IntTy::I128 => "i128",
    }
}

/// Returns the name of an unsigned integer type.
pub(crate) fn uint_name(ty: UintTy) -> &'static str
    ensures { result.now ≡ uint_name ty }
{
    match ty {
        UintTy::Usize => "usize",
        UintTy::U8 => "u8",
        UintTy::U16 => "u16",
        UintTy::U32 => "u32",
        UintTy::U64 => "u64",
        UintTy::U128 => "u128",
    }
}

/// Returns the name of a floating point type.
pub(crate) fn float_name(ty: FloatTy) -> &'static str
    ensures { result.now ≡ float_name ty }
{
    match ty {
        FloatTy::F16 => "f16",
        FloatTy::F32 => "f32",
        FloatTy::F64 => "f64",
        FloatTy::F128 => "f128",
    }
}

/// Returns the word in front of an unsafe function, or the empty text for a safe function.
pub(crate) fn safety_word(safety: Safety) -> &'static str
    ensures { result.now ≡ safety_word safety }
{
    match safety {
        Safety::Safe => "",
        Safety::Unsafe => "unsafe ",
    }
}

/// Returns the words of a calling convention. Rust's own convention has none.
pub(crate) fn abi_words(abi: ExternAbi) -> &'static str
    ensures { result.now ≡ abi_words abi }
{
    match abi {
        ExternAbi::Rust => "",
        ExternAbi::C { unwind: false } => "extern \"C\" ",
        ExternAbi::C { unwind: true } => "extern \"C-unwind\" ",
        ExternAbi::System { unwind: false } => "extern \"system\" ",
        ExternAbi::System { unwind: true } => "extern \"system-unwind\" ",
        ExternAbi::RustCall => "extern \"rust-call\" ",
        ExternAbi::Unadjusted => "extern \"unadjusted\" ",
    }
}

/// Returns the words between a self type and the name of a trait, of a bound on the effects of the trait's items too.
pub(crate) fn bound_words(constness: Option<BoundConstness>) -> &'static str
    ensures { result.now ≡ bound_words constness }
{
    match constness {
        None => ": ",
        Some(BoundConstness::Const) => ": const ",
        Some(BoundConstness::Maybe) => ": [const] ",
    }
}

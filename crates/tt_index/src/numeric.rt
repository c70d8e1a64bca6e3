//! The widths of the numeric types.

/// The signed integer types.
#[derive(Clone, Copy, Debug, PartialEq, Eq, PartialOrd, Ord, Hash)]
pub enum IntTy {
    /// As wide as a pointer.
    Isize,
    /// 8 bits wide.
    I8,
    /// 16 bits wide.
    I16,
    /// 32 bits wide.
    I32,
    /// 64 bits wide.
    I64,
    /// 128 bits wide.
    I128,
}

/// The unsigned integer types.
#[derive(Clone, Copy, Debug, PartialEq, Eq, PartialOrd, Ord, Hash)]
pub enum UintTy {
    /// As wide as a pointer.
    Usize,
    /// 8 bits wide.
    U8,
    /// 16 bits wide.
    U16,
    /// 32 bits wide.
    U32,
    /// 64 bits wide.
    U64,
    /// 128 bits wide.
    U128,
}

/// The floating point types. They are tags: no floating point value is stored anywhere.
#[derive(Clone, Copy, Debug, PartialEq, Eq, PartialOrd, Ord, Hash)]
pub enum FloatTy {
    /// Half precision: 16 bits wide.
    F16,
    /// Single precision: 32 bits wide.
    F32,
    /// Double precision: 64 bits wide.
    F64,
    /// Quadruple precision: 128 bits wide.
    F128,
}

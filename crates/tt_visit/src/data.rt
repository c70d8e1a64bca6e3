//! The visits of values without terms: numbers, tags, indices and ids. They call no hook.

ghost use Rattle.tt_kinds.specs.Shape.{Shape, fill};
ghost use Rattle.tt_interner.specs.Rows.{meaning};
ghost use Rattle.tt_visit.specs.Data.{IsData};
ghost use Rattle.tt_visit.specs.Steps.{Ends, OwnsBreak};
ghost use Rattle.tt_visit.specs.Visit.{Breaks, GoesOver};

use crate::visitable::TypeVisitable;
use crate::visitor::TypeVisitor;
use std::ops::ControlFlow;
use tt_index::{
    ClosureKind, ExternAbi, FloatTy, Index, IntTy, Mutability, Safety, UintTy, Variance,
};
use tt_interner::Interner;
use tt_kinds::{
    AliasRelationDirection, AliasTyKind, AnonConstKind, BoundConstness, BoundVarIndexKind, DefId,
    FloatVarValue, FnHeader, FnSigKind, Id, IntVarValue, ScalarInt,
};

/// Visits a value without terms, whatever its data are.
pub(crate) fn visit_data<V: TypeVisitor>(
    _cx: &Interner,
    _visitor: &mut V,
) -> ControlFlow<V::Break, ()>
    requires owned { V.owned _cx.now.rows _visitor.old }
    ensures owned { V.owned _cx.now.rows _visitor.new }
    ensures broke { OwnsBreak V.break_owned _cx.now.rows result }
    ensures result { (s : Shape) → IsData s → Ends V.meaning (GoesOver V.hooks) (Breaks V.hooks)
        _cx.now.rows _visitor.old (fill (meaning _cx.now.rows) s) result _visitor.new }
{
    ControlFlow::Continue(())
}

impl TypeVisitable for () {
    ghost use Rattle.tt_visit.specs.Data.{data_shape, unit_data};

    ghost shape = { λ _. data_shape unit_data };

    fn visit_with<V: TypeVisitor>(
        &self,
        cx: &Interner,
        visitor: &mut V,
    ) -> ControlFlow<V::Break, ()> {
        visit_data(cx, visitor)
    }
}

impl TypeVisitable for bool {
    ghost use Rattle.tt_visit.specs.Data.{data_shape, number_data, truth_number};

    ghost shape = { λ b. data_shape (number_data 1 (truth_number b)) };

    fn visit_with<V: TypeVisitor>(
        &self,
        cx: &Interner,
        visitor: &mut V,
    ) -> ControlFlow<V::Break, ()> {
        visit_data(cx, visitor)
    }
}

impl TypeVisitable for u16 {
    ghost use Rattle.tt_visit.specs.Data.{data_shape, number_data};

    ghost shape = { λ n. data_shape (number_data 2 n) };

    fn visit_with<V: TypeVisitor>(
        &self,
        cx: &Interner,
        visitor: &mut V,
    ) -> ControlFlow<V::Break, ()> {
        visit_data(cx, visitor)
    }
}

impl TypeVisitable for u32 {
    ghost use Rattle.tt_visit.specs.Data.{data_shape, number_data};

    ghost shape = { λ n. data_shape (number_data 4 n) };

    fn visit_with<V: TypeVisitor>(
        &self,
        cx: &Interner,
        visitor: &mut V,
    ) -> ControlFlow<V::Break, ()> {
        visit_data(cx, visitor)
    }
}

impl TypeVisitable for u64 {
    ghost use Rattle.tt_visit.specs.Data.{data_shape, number_data};

    ghost shape = { λ n. data_shape (number_data 8 n) };

    fn visit_with<V: TypeVisitor>(
        &self,
        cx: &Interner,
        visitor: &mut V,
    ) -> ControlFlow<V::Break, ()> {
        visit_data(cx, visitor)
    }
}

impl TypeVisitable for usize {
    ghost use Rattle.tt_visit.specs.Data.{data_shape, number_data};

    ghost shape = { λ n. data_shape (number_data 8 n) };

    fn visit_with<V: TypeVisitor>(
        &self,
        cx: &Interner,
        visitor: &mut V,
    ) -> ControlFlow<V::Break, ()> {
        visit_data(cx, visitor)
    }
}

impl<S> TypeVisitable for Index<S> {
    ghost use Rattle.tt_visit.specs.Data.{data_shape, number_data};

    ghost shape = { λ index. data_shape (number_data 4 index) };

    fn visit_with<V: TypeVisitor>(
        &self,
        cx: &Interner,
        visitor: &mut V,
    ) -> ControlFlow<V::Break, ()> {
        visit_data(cx, visitor)
    }
}

impl TypeVisitable for Mutability {
    ghost use Rattle.tt_visit.specs.Data.{data_shape, number_data, mutability_number};

    ghost shape = { λ m. data_shape (number_data 1 (mutability_number m)) };

    fn visit_with<V: TypeVisitor>(
        &self,
        cx: &Interner,
        visitor: &mut V,
    ) -> ControlFlow<V::Break, ()> {
        visit_data(cx, visitor)
    }
}

impl TypeVisitable for Safety {
    ghost use Rattle.tt_visit.specs.Data.{data_shape, number_data, safety_number};

    ghost shape = { λ s. data_shape (number_data 1 (safety_number s)) };

    fn visit_with<V: TypeVisitor>(
        &self,
        cx: &Interner,
        visitor: &mut V,
    ) -> ControlFlow<V::Break, ()> {
        visit_data(cx, visitor)
    }
}

impl TypeVisitable for Variance {
    ghost use Rattle.tt_visit.specs.Data.{data_shape, number_data, variance_number};

    ghost shape = { λ v. data_shape (number_data 1 (variance_number v)) };

    fn visit_with<V: TypeVisitor>(
        &self,
        cx: &Interner,
        visitor: &mut V,
    ) -> ControlFlow<V::Break, ()> {
        visit_data(cx, visitor)
    }
}

impl TypeVisitable for ClosureKind {
    ghost use Rattle.tt_index.specs.ClosureKind.{demand};
    ghost use Rattle.tt_visit.specs.Data.{data_shape, number_data};

    ghost shape = { λ kind. data_shape (number_data 1 (demand kind)) };

    fn visit_with<V: TypeVisitor>(
        &self,
        cx: &Interner,
        visitor: &mut V,
    ) -> ControlFlow<V::Break, ()> {
        visit_data(cx, visitor)
    }
}

impl TypeVisitable for ExternAbi {
    ghost use Rattle.tt_index.specs.Abi.{abi_number};
    ghost use Rattle.tt_visit.specs.Data.{data_shape, number_data};

    ghost shape = { λ abi. data_shape (number_data 1 (abi_number abi)) };

    fn visit_with<V: TypeVisitor>(
        &self,
        cx: &Interner,
        visitor: &mut V,
    ) -> ControlFlow<V::Break, ()> {
        visit_data(cx, visitor)
    }
}

impl TypeVisitable for IntTy {
    ghost use Rattle.tt_visit.specs.Data.{data_shape, number_data, int_number};

    ghost shape = { λ ty. data_shape (number_data 1 (int_number ty)) };

    fn visit_with<V: TypeVisitor>(
        &self,
        cx: &Interner,
        visitor: &mut V,
    ) -> ControlFlow<V::Break, ()> {
        visit_data(cx, visitor)
    }
}

impl TypeVisitable for UintTy {
    ghost use Rattle.tt_visit.specs.Data.{data_shape, number_data, uint_number};

    ghost shape = { λ ty. data_shape (number_data 1 (uint_number ty)) };

    fn visit_with<V: TypeVisitor>(
        &self,
        cx: &Interner,
        visitor: &mut V,
    ) -> ControlFlow<V::Break, ()> {
        visit_data(cx, visitor)
    }
}

impl TypeVisitable for FloatTy {
    ghost use Rattle.tt_visit.specs.Data.{data_shape, number_data, float_number};

    ghost shape = { λ ty. data_shape (number_data 1 (float_number ty)) };

    fn visit_with<V: TypeVisitor>(
        &self,
        cx: &Interner,
        visitor: &mut V,
    ) -> ControlFlow<V::Break, ()> {
        visit_data(cx, visitor)
    }
}

impl TypeVisitable for AliasRelationDirection {
    ghost use Rattle.tt_visit.specs.Data.{data_shape, number_data, direction_number};

    ghost shape = { λ d. data_shape (number_data 1 (direction_number d)) };

    fn visit_with<V: TypeVisitor>(
        &self,
        cx: &Interner,
        visitor: &mut V,
    ) -> ControlFlow<V::Break, ()> {
        visit_data(cx, visitor)
    }
}

impl TypeVisitable for BoundVarIndexKind {
    ghost use Rattle.tt_visit.specs.Data.{index_shape};

    ghost shape = { index_shape };

    fn visit_with<V: TypeVisitor>(
        &self,
        cx: &Interner,
        visitor: &mut V,
    ) -> ControlFlow<V::Break, ()> {
        visit_data(cx, visitor)
    }
}

impl TypeVisitable for BoundConstness {
    ghost use Rattle.tt_visit.specs.Data.{data_shape, number_data, constness_number};

    ghost shape = { λ c. data_shape (number_data 1 (constness_number c)) };

    fn visit_with<V: TypeVisitor>(
        &self,
        cx: &Interner,
        visitor: &mut V,
    ) -> ControlFlow<V::Break, ()> {
        visit_data(cx, visitor)
    }
}

impl TypeVisitable for AnonConstKind {
    ghost use Rattle.tt_visit.specs.Data.{data_shape, number_data, anon_const_number};

    ghost shape = { λ kind. data_shape (number_data 1 (anon_const_number kind)) };

    fn visit_with<V: TypeVisitor>(
        &self,
        cx: &Interner,
        visitor: &mut V,
    ) -> ControlFlow<V::Break, ()> {
        visit_data(cx, visitor)
    }
}

impl TypeVisitable for IntVarValue {
    ghost use Rattle.tt_visit.specs.Data.{data_shape, number_data, int_value_number};

    ghost shape = { λ value. data_shape (number_data 1 (int_value_number value)) };

    fn visit_with<V: TypeVisitor>(
        &self,
        cx: &Interner,
        visitor: &mut V,
    ) -> ControlFlow<V::Break, ()> {
        visit_data(cx, visitor)
    }
}

impl TypeVisitable for FloatVarValue {
    ghost use Rattle.tt_visit.specs.Data.{data_shape, number_data, float_value_number};

    ghost shape = { λ value. data_shape (number_data 1 (float_value_number value)) };

    fn visit_with<V: TypeVisitor>(
        &self,
        cx: &Interner,
        visitor: &mut V,
    ) -> ControlFlow<V::Break, ()> {
        visit_data(cx, visitor)
    }
}

impl TypeVisitable for FnSigKind {
    ghost use Rattle.tt_visit.specs.Data.{data_shape, fn_sig_kind_data};

    ghost shape = { λ kind. data_shape (fn_sig_kind_data kind) };

    fn visit_with<V: TypeVisitor>(
        &self,
        cx: &Interner,
        visitor: &mut V,
    ) -> ControlFlow<V::Break, ()> {
        visit_data(cx, visitor)
    }
}

impl TypeVisitable for FnHeader {
    ghost use Rattle.tt_visit.specs.Data.{data_shape, fn_header_data};

    ghost shape = { λ header. data_shape (fn_header_data header) };

    fn visit_with<V: TypeVisitor>(
        &self,
        cx: &Interner,
        visitor: &mut V,
    ) -> ControlFlow<V::Break, ()> {
        visit_data(cx, visitor)
    }
}

impl TypeVisitable for AliasTyKind {
    ghost use Rattle.tt_visit.specs.Data.{data_shape, alias_kind_data};

    ghost shape = { λ kind. data_shape (alias_kind_data kind) };

    fn visit_with<V: TypeVisitor>(
        &self,
        cx: &Interner,
        visitor: &mut V,
    ) -> ControlFlow<V::Break, ()> {
        visit_data(cx, visitor)
    }
}

impl TypeVisitable for ScalarInt {
    ghost use Rattle.tt_visit.specs.Data.{data_shape, scalar_data};

    ghost shape = { λ scalar. data_shape (scalar_data scalar) };

    fn visit_with<V: TypeVisitor>(
        &self,
        cx: &Interner,
        visitor: &mut V,
    ) -> ControlFlow<V::Break, ()> {
        visit_data(cx, visitor)
    }
}

impl TypeVisitable for DefId {
    ghost use Rattle.tt_visit.specs.Data.{data_shape, number_data};

    ghost shape = { λ id. data_shape (number_data 4 id.number) };

    fn visit_with<V: TypeVisitor>(
        &self,
        cx: &Interner,
        visitor: &mut V,
    ) -> ControlFlow<V::Break, ()> {
        visit_data(cx, visitor)
    }
}

impl<S> TypeVisitable for Id<S> {
    ghost use Rattle.tt_visit.specs.Data.{data_shape, number_data};

    ghost shape = { λ id. data_shape (number_data 4 id.number) };

    fn visit_with<V: TypeVisitor>(
        &self,
        cx: &Interner,
        visitor: &mut V,
    ) -> ControlFlow<V::Break, ()> {
        visit_data(cx, visitor)
    }
}

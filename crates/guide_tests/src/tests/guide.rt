//! The steps of the guide, docs/GUIDE.md.

ghost use Rattle.std.specs.Prelude.{IfOk};
ghost use Rattle.tt_kinds.specs.Kinds.{binder_shape, ty_shape};
ghost use Rattle.tt_interner.specs.Owned.{IsOwned};
ghost use Rattle.tt_interner.specs.Stored.{Extends};

use super::holds_anew;
use std::alloc::{AllocError, AllocFailed};
use std::ops::ControlFlow;
use type_terms::prelude::*;
use type_terms::{AnyHandle, Child, Parts};

// Why this checker gives up.
#[derive(Clone, Copy, Debug, PartialEq, Eq, Drop)]
pub enum Fault {
    // A handle is another interner's.
    Foreign,
    // A data type has another number of parameters.
    WrongNumber,
    // A data type has its fields already, or there are too many.
    Defined,
    // The type has no such field.
    NoField,
    // The type has no signature with an output.
    NoFunction,
    // The library refused a call.
    Refused(Refusal),
}

impl From<Refusal> for Fault {
    fn from(refusal: Refusal) -> Fault {
        Fault::Refused(refusal)
    }
}

impl From<AllocError> for Fault {
    fn from(error: AllocError) -> Fault {
        Fault::Refused(Refusal::from(error))
    }
}

impl<T: Drop> From<AllocFailed<T>> for Fault {
    fn from(failed: AllocFailed<T>) -> Fault {
        Fault::Refused(Refusal::from(failed))
    }
}

// `for<'a> fn(&'a T) -> (u32, T)`, where T is the type parameter of index 0.
fn signature(cx: &mut Interner) -> Result<Ty, Refusal> {
    let param = cx.mk_param(0, "T")?;
    let number = cx.mk_ty(TyKind::Uint(UintTy::U32))?;
    let output = cx.mk_tuple(&[number, param])?;
    let first = BoundRegion {
        var: BoundVar::from_u32(0),
        kind: BoundRegionKind::Anon,
    };
    let region = Region::new_bound(DebruijnIndex::INNERMOST, first)?;
    let input = cx.mk_ref(region, param, Mutability::Not)?;
    let inputs_and_output = cx.mk_tys(&[input, output])?;
    let vars = cx.mk_bound_vars(&[BoundVariableKind::Region(BoundRegionKind::Anon)])?;
    let types = Binder::bind_with_vars(FnSigTys { inputs_and_output }, vars);
    let fn_sig_kind = FnSigKind::new(ExternAbi::Rust, Safety::Safe, false);
    cx.mk_ty(TyKind::FnPtr(types, FnHeader { fn_sig_kind }))
}

// Returns the text of the type.
fn text_of(cx: &Interner, ty: Ty) -> Result<String, Fault> {
    if !ty.is_owned(cx) {
        return Err(Fault::Foreign);
    }
    let mut text = String::new(cx.allocator());
    ty.print(cx, &mut text)?;
    Ok(text)
}

// Built twice, a type is one handle. The variable of its binder is printed by its index and its place.
fn is_built_once(cx: &mut Interner) -> Result<bool, Fault> {
    let first = signature(cx)?;
    let second = signature(cx)?;
    let text = text_of(cx, first)?;
    Ok(first == second && text.as_str() == "for<'^0> fn(&'^0.0 T) -> (u32, T)")
}

// A struct. The library keeps its name and its fields, and the checker the number of its parameters.
#[derive(Clone, Copy)]
struct DataType {
    id: AdtId,
    params: usize,
}

// `struct Node<T> { value: T, next: *const Node<T> }`.
fn declared(cx: &mut Interner) -> Result<DataType, Fault> {
    let name = cx.symbol("Node")?;
    let id = cx.declare_adt(name)?;
    let param = cx.mk_param(0, "T")?;
    let value = FieldDef {
        name: cx.symbol("value")?,
        ty: param,
    };
    let params = cx.mk_args(&[GenericArg::from(param)])?;
    let node = cx.mk_ty(TyKind::Adt(id, params))?;
    let next = FieldDef {
        name: cx.symbol("next")?,
        ty: cx.mk_ty(TyKind::RawPtr(node, Mutability::Not))?,
    };
    define(cx, id, &[value, next])?;
    Ok(DataType { id, params: 1 })
}

// Gives the struct these fields.
fn define(cx: &mut Interner, id: AdtId, fields: &[FieldDef]) -> Result<(), Fault> {
    let fields = Vec::from_slice(cx.allocator(), fields)?;
    let mut variants = Vec::new(cx.allocator());
    variants.push(VariantDef { name: None, fields })?;
    if !cx.owns_adt_id(id) || !cx.owns_variants(variants.as_slice()) {
        return Err(Fault::Foreign);
    }
    if cx.is_defined(id) || !Interner::fits_declaration(variants.as_slice()) {
        return Err(Fault::Defined);
    }
    Ok(cx.define_adt(id, EarlyBinder::bind(variants))?)
}

// Returns the data type at these arguments.
fn applied(cx: &mut Interner, data: DataType, args: &[GenericArg]) -> Result<Ty, Fault> {
    if args.len() != data.params {
        return Err(Fault::WrongNumber);
    }
    if !are_owned(cx, args) {
        return Err(Fault::Foreign);
    }
    let args = cx.mk_args(args)?;
    Ok(cx.mk_ty(TyKind::Adt(data.id, args))?)
}

// Returns the type of the field of this name, in a value of this type.
fn field_type(cx: &mut Interner, ty: Ty, name: Symbol) -> Result<Ty, Fault> {
    if !ty.is_owned(cx) {
        return Err(Fault::Foreign);
    }
    if !cx.is_adt(ty) {
        return Err(Fault::NoField);
    }
    let fields = cx.fields_of(ty)?;
    match fields.iter().find(|field| field.name == name) {
        Some(field) => Ok(field.ty),
        None => Err(Fault::NoField),
    }
}

// The fields of a `Node<bool>` are a `bool` and a pointer to such a node, and `bool` has none. `Node` without arguments
// isn't built.
fn is_declared(cx: &mut Interner) -> Result<bool, Fault> {
    let data = declared(cx)?;
    let truth = cx.mk_ty(TyKind::Bool)?;
    let node = applied(cx, data, &[GenericArg::from(truth)])?;
    if !node.is_owned(cx) {
        return Err(Fault::Foreign);
    }
    let pointer = cx.mk_ty(TyKind::RawPtr(node, Mutability::Not))?;
    let (value, next) = (cx.symbol("value")?, cx.symbol("next")?);
    Ok(
        field_type(cx, node, value) == Ok(truth)
            && field_type(cx, node, next) == Ok(pointer)
            && field_type(cx, truth, value) == Err(Fault::NoField)
            && applied(cx, data, &[]) == Err(Fault::WrongNumber),
    )
}

// `fn first<T>([T]) -> T`.
fn declared_function(cx: &mut Interner) -> Result<FunctionId, Fault> {
    let param = cx.mk_param(0, "T")?;
    let slice = cx.mk_ty(TyKind::Slice(param))?;
    let sig = FnSig {
        inputs_and_output: cx.mk_tys(&[slice, param])?,
        fn_sig_kind: FnSigKind::new(ExternAbi::Rust, Safety::Safe, false),
    };
    let sig = Binder::bind_with_vars(sig, BoundVarKinds::default());
    let name = cx.symbol("first")?;
    if !cx.owns_signature(&sig) {
        return Err(Fault::Foreign);
    }
    Ok(cx.declare_function(name, EarlyBinder::bind(sig))?)
}

// Returns the type of the function, at this argument.
fn function_item(cx: &mut Interner, id: FunctionId, argument: Ty) -> Result<Ty, Fault> {
    if !argument.is_owned(cx) {
        return Err(Fault::Foreign);
    }
    let args = cx.mk_args(&[GenericArg::from(argument)])?;
    Ok(cx.mk_ty(TyKind::FnDef(id, args))?)
}

// Returns what a call of a value of this type returns.
fn output_of(cx: &mut Interner, callee: Ty) -> Result<Binder<Ty>, Fault>
    ensures extends { Extends cx.old cx.new }
    ensures owned { IfOk result (λ output. IsOwned (binder_shape ty_shape) cx.new output) }
{
    if !callee.is_owned(cx) {
        return Err(Fault::Foreign);
    }
    let kind = *callee.kind(cx);
    if !kind.has_fn_sig(cx) || !cx.owns_kind(&kind) {
        return Err(Fault::NoFunction);
    }
    let sig = kind.fn_sig(cx)?;
    if !sig.has_output(cx) {
        return Err(Fault::NoFunction);
    }
    Ok(sig.output(cx))
}

// `first` at `bool` returns a `bool`, and a pointer to a function its output. `bool` can't be called.
fn is_called(cx: &mut Interner) -> Result<bool, Fault> {
    let id = declared_function(cx)?;
    let truth = cx.mk_ty(TyKind::Bool)?;
    let item = function_item(cx, id, truth)?;
    let pointer = signature(cx)?;
    let output = output_of(cx, pointer)?;
    Ok(
        output_of(cx, item)?.skip_binder() == truth
            && text_of(cx, output.skip_binder())?.as_str() == "(u32, T)"
            && output_of(cx, truth) == Err(Fault::NoFunction),
    )
}

// Returns whether the type is a generic function pointer without inference variables and escaping variables.
fn is_generic_signature(cx: &Interner, ty: Ty) -> bool {
    if !ty.is_owned(cx) {
        return false;
    }
    let is_pointer = matches!(ty.kind(cx), TyKind::FnPtr(..));
    let is_closed = ty.outer_exclusive_binder(cx) == DebruijnIndex::INNERMOST;
    is_pointer && is_closed && ty.has_param(cx) && !ty.has_infer(cx)
}

// The flags are one set for the whole type: the parameter, the bound region, and the binder's variables.
fn is_asked(cx: &mut Interner) -> Result<bool, Refusal> {
    let ty = signature(cx)?;
    let is_one = is_generic_signature(cx, ty);
    Ok(is_one && ty.is_owned(cx) && ty.flags(cx).bits() == 0x1040001)
}

// Returns the type with its type parameter of index 0 replaced by the argument.
fn with_argument(cx: &mut Interner, ty: Ty, argument: GenericArg) -> Result<Ty, Fault> {
    if !ty.is_owned(cx) || !argument.is_owned(cx) {
        return Err(Fault::Foreign);
    }
    let args = [argument];
    let instance = EarlyBinder::bind(ty).instantiate(cx, args.as_slice())?;
    Ok(instance.skip_norm_wip())
}

// A type for T is accepted. A region for T is refused, with the parameter's index, and the signature is unchanged.
fn is_instantiated(cx: &mut Interner) -> Result<bool, Fault> {
    let ty = signature(cx)?;
    let truth = cx.mk_ty(TyKind::Bool)?;
    let region = Region::new_static();
    let instance = with_argument(cx, ty, GenericArg::from(truth))?;
    let refused = with_argument(cx, ty, GenericArg::from(region));
    Ok(
        !is_generic_signature(cx, instance)
            && refused == Err(Fault::Refused(Refusal::ArgKind { index: 0 }))
            && is_generic_signature(cx, ty),
    )
}

// Returns the type shifted into `binders` more binders.
fn under_binders(cx: &mut Interner, ty: Ty, binders: u32) -> Result<Ty, Fault> {
    if !ty.is_owned(cx) {
        return Err(Fault::Foreign);
    }
    Ok(shift_vars(cx, ty, binders)?)
}

// Returns `&'a u32`, where `'a` is the first region of the binder at this index.
fn bound_reference(cx: &mut Interner, index: DebruijnIndex) -> Result<Ty, Refusal> {
    let first = BoundRegion {
        var: BoundVar::from_u32(0),
        kind: BoundRegionKind::Anon,
    };
    let region = Region::new_bound(index, first)?;
    let number = cx.mk_ty(TyKind::Uint(UintTy::U32))?;
    cx.mk_ref(region, number, Mutability::Not)
}

// `&'^0.0 u32` is `&'^2.0 u32` under two more binders. A type without escaping variables is returned unchanged.
fn is_shifted_by_two(cx: &mut Interner) -> Result<bool, Fault> {
    let near = bound_reference(cx, DebruijnIndex::INNERMOST)?;
    let far = bound_reference(cx, DebruijnIndex::from_u32(2))?;
    let closed = cx.mk_ty(TyKind::Uint(UintTy::U32))?;
    Ok(under_binders(cx, near, 2)? == far && under_binders(cx, closed, 2)? == closed)
}

// Looks for an inference variable, and enters no type without one.
#[derive(Drop)]
struct Occurrence {
    vid: TyVid,
}

impl TypeInspector for Occurrence {
    type Break = TyVid;

    fn inspect_ty(&mut self, cx: &Interner, ty: Ty) -> ControlFlow<TyVid, Next> {
        if !ty.has_infer_types(cx) {
            return ControlFlow::Continue(Next::Skip);
        }
        let TyKind::Infer(InferTy::TyVar(vid)) = *ty.kind(cx) else {
            return ControlFlow::Continue(Next::Descend);
        };
        if vid == self.vid {
            ControlFlow::Break(vid)
        } else {
            ControlFlow::Continue(Next::Skip)
        }
    }
}

// Returns whether the inference variable occurs in the value.
fn occurs<T: Owned>(cx: &Interner, value: &T, vid: TyVid) -> bool {
    if !value.is_owned(cx) {
        return false;
    }
    inspect_types(cx, value, &mut Occurrence { vid }).is_break()
}

// `[?3]` holds the variable 3 and no variable 4, and the signature holds none.
fn is_visited(cx: &mut Interner) -> Result<bool, Refusal> {
    let (three, four) = (TyVid::from_u32(3), TyVid::from_u32(4));
    let variable = cx.mk_ty(TyKind::Infer(InferTy::TyVar(three)))?;
    let slice = cx.mk_ty(TyKind::Slice(variable))?;
    let ty = signature(cx)?;
    Ok(occurs(cx, &(ty, slice), three) && !occurs(cx, &slice, four) && !occurs(cx, &ty, three))
}

// Replaces an inference variable by its solution.
#[derive(Drop)]
struct Solve {
    vid: TyVid,
    solution: Ty,
}

impl TypeReplacer for Solve {
    type Error = Refusal;

    ghost shape = { λ s. ty_shape s.solution };

    fn replace_ty(&mut self, cx: &mut Interner, ty: Ty) -> Result<Step<Ty>, Refusal> {
        if !ty.has_infer_types(cx) {
            return Ok(Step::Keep);
        }
        let TyKind::Infer(InferTy::TyVar(vid)) = *ty.kind(cx) else {
            return Ok(Step::Descend);
        };
        if vid == self.vid {
            Ok(Step::Replace(self.solution))
        } else {
            Ok(Step::Keep)
        }
    }
}

// Returns the type with the inference variable replaced by the solution.
fn solved(cx: &mut Interner, ty: Ty, vid: TyVid, solution: Ty) -> Result<Ty, Fault> {
    if !ty.is_owned(cx) || !solution.is_owned(cx) {
        return Err(Fault::Foreign);
    }
    Ok(replace_types(cx, ty, &mut Solve { vid, solution })?)
}

// `[?3]` with `u32` for the variable 3 is `[u32]`.
fn is_folded(cx: &mut Interner) -> Result<bool, Fault> {
    let three = TyVid::from_u32(3);
    let variable = cx.mk_ty(TyKind::Infer(InferTy::TyVar(three)))?;
    let slice = cx.mk_ty(TyKind::Slice(variable))?;
    let number = cx.mk_ty(TyKind::Uint(UintTy::U32))?;
    let wanted = cx.mk_ty(TyKind::Slice(number))?;
    let result = solved(cx, slice, three, number)?;
    Ok(result == wanted)
}

// Returns the children of both terms, if the terms differ in nothing else.
fn paired_parts(cx: &Interner, left: AnyHandle, right: AnyHandle) -> Option<(Parts, Parts)> {
    if left.table != right.table || left.table.has_items() {
        return None;
    }
    if !cx.owns_any(left) || !cx.owns_any(right) {
        return None;
    }
    let (left, right) = (cx.node_kind(left), cx.node_kind(right));
    let (own, other) = (left.parts(), right.parts());
    if own.are_like(&other) && left.with_parts(other) == right {
        Some((own, other))
    } else {
        None
    }
}

// Returns whether the terms differ in regions alone, or `None` if they are nested deeper than the limit.
fn agree(cx: &Interner, left: Child, right: Child, limit: u32) -> Option<bool> {
    if left == right {
        return Some(true);
    }
    if limit == 0 {
        return None;
    }
    match (left, right) {
        (Child::Region(_), Child::Region(_)) => Some(true),
        (Child::Stored(left), Child::Stored(right)) if !left.table.has_items() => {
            let Some((own, other)) = paired_parts(cx, left, right) else {
                return Some(false);
            };
            Some(
                agree(cx, own.first, other.first, limit - 1)?
                    && agree(cx, own.second, other.second, limit - 1)?,
            )
        }
        (Child::Stored(left), Child::Stored(right)) => {
            if left.table != right.table || !cx.owns_any(left) || !cx.owns_any(right) {
                return Some(false);
            }
            let len = cx.list_len(left);
            if len != cx.list_len(right) {
                return Some(false);
            }
            for place in 0..len {
                let (own, other) = (cx.list_child(left, place), cx.list_child(right, place));
                if !agree(cx, own, other, limit - 1)? {
                    return Some(false);
                }
            }
            Some(true)
        }
        _ => Some(false),
    }
}

// Returns whether the types differ in regions alone.
fn types_agree(cx: &Interner, left: Ty, right: Ty, limit: u32) -> Option<bool> {
    agree(cx, left.child(), right.child(), limit)
}

// Returns `(&'?N R, u32)`, for the region variable N and an integer R.
fn pair(cx: &mut Interner, vid: RegionVid, referent: UintTy) -> Result<Ty, Refusal> {
    let referent = cx.mk_ty(TyKind::Uint(referent))?;
    let reference = cx.mk_ref(Region::new_var(vid), referent, Mutability::Not)?;
    let number = cx.mk_ty(TyKind::Uint(UintTy::U32))?;
    cx.mk_tuple(&[reference, number])
}

// `(&'?0 u32, u32)` differs from `(&'?1 u32, u32)` in a region, and from `(&'?1 u8, u32)` in a type.
fn is_compared(cx: &mut Interner) -> Result<bool, Refusal> {
    let (zero, one) = (RegionVid::from_u32(0), RegionVid::from_u32(1));
    let first = pair(cx, zero, UintTy::U32)?;
    let second = pair(cx, one, UintTy::U32)?;
    let third = pair(cx, one, UintTy::U8)?;
    Ok(
        types_agree(cx, first, second, 64) == Some(true)
            && types_agree(cx, first, third, 64) == Some(false)
            && types_agree(cx, first, second, 1) == None,
    )
}

// Returns the slice of this type, which has to be the interner's.
fn slice_of(cx: &mut Interner, ty: Ty) -> Result<Ty, Refusal>
    requires { IsOwned ty_shape cx.old ty }
    ensures extends { Extends cx.old cx.new }
    ensures owned { IfOk result (λ slice. IsOwned ty_shape cx.new slice) }
{
    cx.mk_ty(TyKind::Slice(ty))
}

// `[[bool]]` is built once, and differs from `[bool]`.
fn is_nested(cx: &mut Interner) -> Result<bool, Refusal> {
    let truth = cx.mk_ty(TyKind::Bool)?;
    let slice = slice_of(cx, truth)?;
    let nested = slice_of(cx, slice)?;
    Ok(slice_of(cx, slice)? == nested && nested != slice)
}

// Takes each of the steps.
fn steps_hold(cx: &mut Interner) -> Result<bool, Fault> {
    let built = is_built_once(cx)?;
    let declared = is_declared(cx)?;
    let called = is_called(cx)?;
    let asked = is_asked(cx)?;
    let instantiated = is_instantiated(cx)?;
    let shifted = is_shifted_by_two(cx)?;
    let visited = is_visited(cx)?;
    let folded = is_folded(cx)?;
    let compared = is_compared(cx)?;
    let nested = is_nested(cx)?;
    let first = built && declared && called && asked && instantiated && shifted;
    Ok(first && visited && folded && compared && nested)
}

#[test]
fn the_steps_hold(rt: HostRuntime) {
    holds_anew(
        &rt,
        rt.alloc(),
        |cx: &mut Interner| Ok(steps_hold(cx) == Ok(true)),
    );
}

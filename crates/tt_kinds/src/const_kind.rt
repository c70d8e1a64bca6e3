//! Constants of the type level.

ghost use Rattle.std.specs.Prelude.{◌≡◌};
ghost use Rattle.tt_kinds.specs.ValTree.{IsLeaf, IsBranch, leaf_of, branch_of};
ghost use Rattle.tt_kinds.specs.declared.const_kind.ValTreeKind.TheVariants as tree;

use crate::bound::{BoundConst, BoundVarIndexKind};
use crate::error_guaranteed::ErrorGuaranteed;
use crate::handle::{Consts, GenericArgs, Symbol, Ty};
use crate::id::UnevaluatedConstId;
use crate::placeholder::PlaceholderConst;
use tt_index::ConstVid;

/// A constant parameter of an item, which is replaced when the item is instantiated.
#[derive(Clone, Copy, Debug, PartialEq, Eq, Hash)]
pub struct ParamConst {
    /// Its place among the item's generic parameters.
    pub index: u32,
    /// Its name.
    pub name: Symbol,
}

/// A constant inference variable.
#[derive(Clone, Copy, Debug, PartialEq, Eq, PartialOrd, Ord, Hash)]
pub enum InferConst {
    /// A variable for any constant.
    Var(ConstVid),
    /// A number that replaces a `Var`, by which caches tell constants apart.
    Fresh(u32),
}

/// A constant whose value isn't computed yet.
#[derive(Clone, Copy, Debug, PartialEq, Eq, Hash)]
pub struct UnevaluatedConst {
    /// The declaration that computes it.
    pub def: UnevaluatedConstId,
    /// The arguments of the declaration.
    pub args: GenericArgs,
}

impl UnevaluatedConst {
    /// Returns the constant that `def` computes for these arguments.
    pub fn new(def: UnevaluatedConstId, args: GenericArgs) -> UnevaluatedConst
        ensures { result ≡ record { def = def; args = args } }
    {
        UnevaluatedConst { def, args }
    }
}

/// The bits of an integer, a `bool` or a `char`.
#[derive(Clone, Copy, Debug, PartialEq, Eq, Hash)]
pub struct ScalarInt {
    /// The value's bits as a number.
    pub bits: u128,
    /// The value's size in bytes.
    pub size: u8,
}

/// The kind of a value of the type level: a leaf or a branch.
#[derive(Clone, Copy, Debug, PartialEq, Eq, Hash)]
pub enum ValTreeKind {
    /// A leaf: the bits of a scalar.
    Leaf(ScalarInt),
    /// A branch: the values of its fields or items, in order.
    Branch(Consts),
}

impl ValTreeKind {
    /// Returns the bits of a leaf. The value has to be a leaf; [`ValTreeKind::try_to_leaf`] tests it.
    pub fn to_leaf(self) -> ScalarInt
        requires { IsLeaf self }
        ensures { self ≡ tree.Leaf result }
    {
        match self {
            ValTreeKind::Leaf(leaf) => leaf,
            ValTreeKind::Branch(_) => unreachable!(),
        }
    }

    /// Returns the values inside a branch. The value has to be a branch; [`ValTreeKind::try_to_branch`] tests it.
    pub fn to_branch(self) -> Consts
        requires { IsBranch self }
        ensures { self ≡ tree.Branch result }
    {
        match self {
            ValTreeKind::Branch(branch) => branch,
            ValTreeKind::Leaf(_) => unreachable!(),
        }
    }

    /// Returns the bits of a leaf, and `None` for a branch.
    pub fn try_to_leaf(self) -> Option<ScalarInt>
        ensures { result ≡ leaf_of self }
    {
        match self {
            ValTreeKind::Leaf(leaf) => Some(leaf),
            ValTreeKind::Branch(_) => None,
        }
    }

    /// Returns the values inside a branch, and `None` for a leaf.
    pub fn try_to_branch(self) -> Option<Consts>
        ensures { result ≡ branch_of self }
    {
        match self {
            ValTreeKind::Branch(branch) => Some(branch),
            ValTreeKind::Leaf(_) => None,
        }
    }
}

/// A value of the type level, without its type.
#[derive(Clone, Copy, Debug, PartialEq, Eq, Hash)]
pub struct ValTree {
    kind: ValTreeKind,
}

impl ValTree {
    /// Returns the value's kind: a leaf or a branch.
    pub fn kind(self) -> ValTreeKind
        ensures { result ≡ self.kind }
    {
        self.kind
    }
}

impl From<ValTreeKind> for ValTree {
    ghost from_gives = { λ kind valtree. valtree ≡ record { kind = kind } };

    fn from(kind: ValTreeKind) -> ValTree {
        ValTree { kind }
    }
}

/// A value with its type.
#[derive(Clone, Copy, Debug, PartialEq, Eq, Hash)]
pub struct ValueConst {
    /// Its type.
    pub ty: Ty,
    /// The value.
    pub valtree: ValTree,
}

/// An expression over constants that can't be computed yet.
#[derive(Clone, Copy, Debug, PartialEq, Eq, Hash)]
pub struct ExprConst {
    /// Which expression it is: a number that the front end chooses.
    pub tag: u32,
    /// The expression's parts, as generic arguments.
    pub args: GenericArgs,
}

/// The kind of a constant.
#[derive(Clone, Copy, Debug, PartialEq, Eq, Hash)]
pub enum ConstKind {
    /// A constant parameter of an item.
    Param(ParamConst),
    /// A constant inference variable.
    Infer(InferConst),
    /// A constant that a binder binds.
    Bound(BoundVarIndexKind, BoundConst),
    /// A placeholder: a bound constant whose binder has been entered.
    Placeholder(PlaceholderConst),
    /// A constant whose value isn't computed yet.
    Unevaluated(UnevaluatedConst),
    /// A value.
    Value(ValueConst),
    /// A constant for which an error was reported.
    Error(ErrorGuaranteed),
    /// An expression over constants.
    Expr(ExprConst),
}

/// How an anonymous constant was written.
#[derive(Clone, Copy, Debug, PartialEq, Eq, Hash)]
pub enum AnonConstKind {
    /// An expression that may use every generic parameter in scope.
    GCE,
    /// An expression that may use no generic parameter.
    MCG,
    /// An expression that may use the generic parameters that it names.
    GCA,
    /// The length of an array that repeats one value.
    RepeatExprCount,
    /// An expression that occurs in no type.
    NonTypeSystem,
}

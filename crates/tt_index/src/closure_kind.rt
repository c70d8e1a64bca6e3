//! The closure traits.

ghost use Rattle.std.specs.Prelude.{◌≡◌, ◌≤◌, ◌↔◌, IsTrue};
ghost use Rattle.tt_index.specs.ClosureKind.{demand, trait_name};

/// A closure trait, which says how a call takes the closure's environment.
#[derive(Clone, Copy, Debug, PartialEq, Eq, Hash)]
pub enum ClosureKind {
    /// By shared reference.
    Fn,
    /// By exclusive reference.
    FnMut,
    /// By value.
    FnOnce,
}

impl ClosureKind {
    /// The kind that demands the least of the environment, from which inference starts.
    pub const LATTICE_BOTTOM: ClosureKind = ClosureKind::Fn;

    /// Returns the trait's name.
    pub fn as_str(self) -> &'static str
        ensures { result.now ≡ trait_name self }
    {
        match self {
            ClosureKind::Fn => "Fn",
            ClosureKind::FnMut => "FnMut",
            ClosureKind::FnOnce => "FnOnce",
        }
    }

    /// Returns whether a type that implements this trait must also implement `other`.
    pub fn extends(self, other: ClosureKind) -> bool
        ensures { IsTrue result ↔ (demand self ≤ demand other) }
    {
        match (self, other) {
            (ClosureKind::Fn, _)
            | (ClosureKind::FnMut, ClosureKind::FnMut | ClosureKind::FnOnce)
            | (ClosureKind::FnOnce, ClosureKind::FnOnce) => true,
            _ => false,
        }
    }
}

/// [`ClosureKind::LATTICE_BOTTOM`] extends every kind. The function does nothing: its contract is a law.
pub fn lattice_bottom_extends(kind: ClosureKind)
    ensures { demand ClosureKind.LATTICE_BOTTOM ≤ demand kind }
{}

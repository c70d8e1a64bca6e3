//! A closure that records its calls, and what it recorded by the contract of the fold.

ghost use Rattle.std.specs.Prelude.{◌≡◌, ◌++◌, ◌∷◌, [], IfOk, false, map};
ghost use Rattle.tt_kinds.specs.Met.{met};
ghost use Rattle.tt_fold.specs.RegionFolder.{names_in, region_tree};
ghost use Rattle.tt_fold.specs.Steps.{IsPartBy, tree_by};

use super::holds_anew;
use super::regions::static_ref;
use test_terms::NOT_OWNED;
use type_terms::{
    DebruijnIndex, Interner, Owned, Refusal, Region, RegionKind, TypeFoldable, fold_regions_with,
};

// A call of a closure: the region, and how many binders enclose it.
#[derive(Clone, Copy)]
struct Asked {
    region: Region,
    depth: u32,
}

// The calls of a closure.
#[derive(Drop)]
struct Log {
    calls: Vec<Asked>,
    // whether memory for a call was refused
    is_lost: bool,
}

impl Log {
    // Records a call, and returns its region.
    fn note(&mut self, region: Region, depth: DebruijnIndex) -> Region
        ensures itself { result ≡ region }
        ensures noted { self.new.is_lost ≡ false → (self.old.is_lost ≡ false)
            × (self.new.calls.items ≡ self.old.calls.items ++ (record { region = region; depth = depth } ∷ [])) }
    {
        let depth = depth.as_u32();
        if self.calls.push(Asked { region, depth }).is_err() {
            self.is_lost = true;
        }
        region
    }
}

// Returns the value, with a call in the log for each of its regions: exactly the ones that the value doesn't bind, in
// order, with the numbers of binders around them.
fn recorded<T: TypeFoldable>(cx: &mut Interner, value: T, log: &mut Log) -> Result<T, Refusal>
    requires value { IsPartBy T.shape cx.old.rows value }
    ensures exact { IfOk result (λ same. log.new.is_lost ≡ false →
        map (λ c. record { standing = region_tree (names_in cx.old.rows) c.region; under = c.depth }) log.new.calls.items
        ≡ map (λ c. record { standing = region_tree (names_in cx.old.rows) c.region; under = c.depth })
        log.old.calls.items ++ met 0 (tree_by T.shape cx.old.rows value)) }
{
    let mut ask = |region: Region, depth: DebruijnIndex|
        ensures itself { result ≡ region }
        ensures noted { log.exit.now.is_lost ≡ false → (log.entry.now.is_lost ≡ false)
            × (log.exit.now.calls.items ≡ log.entry.now.calls.items
            ++ (record { region = region; depth = depth } ∷ [])) }
    { log.note(region, depth) };
    fold_regions_with(cx, value, &mut ask)
}

// In the pair of `&'static u32` with itself the region is at two places, and both are recorded.
fn both_places_are_recorded_holds(cx: &mut Interner) -> Result<bool, Refusal> {
    let ty = static_ref(cx)?;
    let value = (ty, ty);
    if !value.is_owned(cx) {
        return Err(NOT_OWNED);
    }
    let mut log = Log {
        calls: Vec::new(cx.allocator()),
        is_lost: false,
    };
    let same = recorded(cx, value, &mut log)?;
    let mut is_right = same == value && !log.is_lost && log.calls.len() == 2;
    for call in log.calls.iter() {
        if call.depth != 0 || call.region.kind() != RegionKind::ReStatic {
            is_right = false;
        }
    }
    Ok(is_right)
}

#[test]
fn both_places_are_recorded(rt: HostRuntime) {
    holds_anew(&rt, rt.alloc(), both_places_are_recorded_holds);
}

//! The memory of a folder: the results of types, each under a number of binders.

ghost use Rattle.std.specs.Prelude.{◌≡◌, ◌<◌, ◌≤◌, [], length, position, IfOk, IfErr, IsOk, OnOk, OnErr, MatchOption};
ghost use Rattle.std.specs.Map.{lookup};
ghost use Rattle.indexmap.specs.IndexMap.{insert_all, insert_entry};
ghost use Rattle.tt_kinds.specs.Kinds.{ty_shape};
ghost use Rattle.tt_fold.specs.Steps.{IsPartOf};
ghost use Rattle.tt_fold.specs.Places.{IsIn};
ghost use Rattle.tt_fold.specs.Remember.{places};
ghost use Rattle.tt_fold.specs.Memory.{place_of, same_place, type_at, memo_at, memos, OwnsMemos};
ghost use Rattle.tt_fold.specs.Notes.{AreNotes, note_entries, noted_entries};

use indexmap::IndexMap;
use smallvec::SmallVec;
use std::alloc::Global;
use std::marker::Model;
use tt_index::Refusal;
use tt_interner::Interner;
use tt_kinds::Ty;

/// A type under a number of binders.
#[derive(Clone, Copy, PartialEq, Eq, Hash)]
pub struct Place {
    ty: Ty,
    under: u32,
}

// The result of a type under a number of binders.
#[derive(Clone, Copy)]
struct Note {
    place: Place,
    after: Ty,
}

// A small vector keeps the default in its unused places.
impl Default for Note {
    fn default() -> Note {
        let ty = Ty::from_number(0);
        Note {
            place: Place { ty, under: 0 },
            after: ty,
        }
    }
}

// A few notes are kept in place and searched in turn. Once they don't fit, all of them are kept in a map.
#[derive(Drop)]
enum Notes {
    Few(SmallVec<Note, 8>),
    Many(IndexMap<Place, Ty>),
}

/// The results of types, each with the number of binders that enclosed the type.
#[derive(Drop)]
pub struct Memory {
    notes: Notes,
}

impl Model for Memory {
    ghost use Rattle.std.specs.Prelude.{List};
    ghost use Rattle.tt_kinds.specs.Handle.{Ty};
    ghost use Rattle.tt_fold.specs.declared.memory.Place.{Place};

    ghost Value = { List (Place × Ty) };

    ghost use Rattle.tt_fold.specs.Notes.{AreNotes, noted_entries};

    ghost view = { λ m. noted_entries m.notes };

    ghost invariant = { λ m. AreNotes m.notes };
}

// Returns the position of the place among the notes, if it is there.
fn position_of(notes: &[Note], place: Place) -> Option<usize>
    ensures { result ≡ position (λ note. same_place place note.place) notes.now }
{
    notes.iter().position(|note| place == note.place)
}

// Returns a map of the notes.
fn map_of(alloc: Global, notes: &[Note]) -> Result<IndexMap<Place, Ty>, Refusal>
    ensures ok { IfOk result (λ m. m.entries ≡ insert_all same_place [] (note_entries notes.now)) }
    ensures err { IfErr result (λ e. e ≡ Refusal.Memory) }
{
    let mut entries = IndexMap::with_capacity(alloc, 2 * notes.len())?;
    for note in notes {
        entries.insert(note.place, note.after)?;
    }
    Ok(entries)
}

// Remembers a result in a map, and first moves notes that are kept in place into a new map. This function isn't
// inlined, so that `note` doesn't clear the room for a map each time.
#[inline(never)]
fn note_in_map(notes: &mut Notes, place: Place, after: Ty) -> Result<(), Refusal>
    requires notes { AreNotes notes.old }
    requires full { 8 ≤ length (noted_entries notes.old) }
    ensures notes { AreNotes notes.new }
    ensures ok { OnOk result
        (noted_entries notes.new ≡ insert_entry same_place (noted_entries notes.old) place after) }
    ensures err { IfErr result (λ e. e ≡ Refusal.Memory) }
    ensures stays { OnErr result (noted_entries notes.new ≡ noted_entries notes.old) }
{
    match notes {
        Notes::Few(few) => {
            let mut many = map_of(*few.allocator(), few.as_slice())?;
            many.insert(place, after)?;
            *notes = Notes::Many(many);
            Ok(())
        }
        Notes::Many(many) => {
            many.insert(place, after)?;
            Ok(())
        }
    }
}

impl Memory {
    /// Returns an empty memory. It allocates nothing until more than eight places are noted.
    pub fn new(alloc: Global) -> Memory
        ensures { result ≡ [] }
    {
        Memory {
            notes: Notes::Few(SmallVec::new(alloc)),
        }
    }

    /// Returns the result of the type under `under` binders, if it is remembered.
    #[inline(always)]
    pub fn recall(&self, ty: Ty, under: u32) -> Option<Ty>
        ensures { result ≡ lookup (same_place (place_of ty under)) self.now }
    {
        let place = Place { ty, under };
        match &self.notes {
            Notes::Few(few) => match position_of(few.as_slice(), place) {
                Some(i) => Some(few[i].after),
                None => None,
            },
            Notes::Many(many) => match many.get(&place) {
                Some(after) => Some(*after),
                None => None,
            },
        }
    }

    /// Remembers the result of a type under `under` binders, in place of an earlier one. Refused with `Memory` alone,
    /// and then nothing changes. While fewer than eight places are remembered, the call is never refused.
    #[inline(always)]
    pub fn note(&mut self, before: Ty, under: u32, after: Ty) -> Result<(), Refusal>
        ensures ok { OnOk result (self.new ≡ insert_entry same_place self.old (place_of before under) after) }
        ensures err { IfErr result (λ e. e ≡ Refusal.Memory) }
        ensures stays { OnErr result (self.new ≡ self.old) }
        ensures succeeds { length self.old < 8 → IsOk result }
    {
        let place = Place { ty: before, under };
        match &mut self.notes {
            Notes::Few(few) => match position_of(few.as_slice(), place) {
                Some(i) => {
                    few[i].after = after;
                    Ok(())
                }
                None if few.len() < few.capacity() => {
                    few.push_reserved(Note { place, after });
                    Ok(())
                }
                None => note_in_map(&mut self.notes, place, after),
            },
            Notes::Many(many) => {
                many.insert(place, after)?;
                Ok(())
            }
        }
    }
}

/// Returns the result of the type under `under` binders, if it is remembered. Equal trees have equal handles, so if no
/// result is found for the handle, none is remembered for its tree.
#[inline(always)]
pub fn look_up(cx: &Interner, memory: &Memory, ty: Ty, under: u32) -> Option<Ty>
    requires ty { IsPartOf cx.now.rows (ty_shape ty) }
    requires memory { OwnsMemos cx.now.rows memory.now }
    ensures exact { result ≡ lookup (same_place (place_of ty under)) memory.now }
    ensures trees { MatchOption
        result
        (IsIn (type_at cx.now.rows ty under) (places (memos cx.now.rows memory.now)) → ⊥)
        (λ after. IsPartOf cx.now.rows (ty_shape after)
        × IsIn (memo_at cx.now.rows ty under after) (memos cx.now.rows memory.now)) }
{
    cx.are_interned();
    memory.recall(ty, under)
}

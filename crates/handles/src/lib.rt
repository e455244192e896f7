// Whole arrays of handles: those that dangle, those on one object, the ends of a pipe, the row of one subject, the pipes that end.
#![tactic(auto)]

ghost use Rattle.std.specs.Prelude.{◌≡◌, List, ℕ, ◌%◌, ◌<◌, get_or};
ghost use Rattle.std.proofs.Math.Option.{none, some};
ghost use Rattle.model.specs.Tables.{Tables, reading, writing, handle, clean, empty, with_hand, open_on};
ghost use Rattle.model.specs.Tables.{handles as all_handles};
ghost use Rattle.model.specs.Steps.{reap, row, place};
ghost use Rattle.model.specs.Calls.{lasting};
ghost use Rattle.tables.specs.declared.Subject.{Subject};
ghost use Rattle.tables.specs.declared.Object.{Object};
ghost use Rattle.tables.specs.Records.{no_handle, hands, along, tables_of};
ghost use Rattle.tables.specs.Working.{Outlives};
ghost use Rattle.handles.specs.Handing.{Handed};
ghost use Rattle.handles.specs.Working.{kept_of, lasting_of, on, Hits, outlived_by};

use std::array;
use tables::{
    EMPTY, FREE, HANDLES, Handle, MAPS, OBJECTS, Object, PIPE, PLACES, READS, SUBJECTS, Subject,
    WRITES, looks,
};

// ---- tables that no calls made ----

// A handle record, or an empty one where it dangles: `object` is the one at its number modulo OBJECTS.
pub fn kept(h: Handle, subject: Subject, object: Object) -> Handle
    ensures { result ≡ kept_of h subject object }
{
    if subject.live == 0 || OBJECTS as u8 <= h.object || object.kind == FREE {
        return Handle::default();
    }
    h
}

// The handles with every dangling one emptied.
pub fn cleaned(
    subjects: [Subject; SUBJECTS],
    objects: [Object; OBJECTS],
    handles: [Handle; HANDLES],
) -> [Handle; HANDLES]
    ensures { (rest : Tables) → tables_of rest subjects objects result ≡ clean (tables_of rest subjects objects handles) }
{
    array::from_fn(|i| {
        let h = handles[i];
        kept(
            h,
            subjects[i / PLACES],
            objects[h.object as usize % OBJECTS],
        )
    })
}

// ---- handles on an object, and the end of a pipe ----

// A handle on object o.
fn is_on(h: Handle, o: u8) -> bool
    ensures { result ≡ on h o }
{
    h.way != EMPTY && h.object == o
}

// A handle is open on object o.
pub fn is_open(handles: [Handle; HANDLES], o: u8) -> bool
    ensures { result ≡ open_on (all_handles (with_hand empty (hands handles))) o }
{
    handles.iter().any(|h| is_on(*h, o))
}

// The record of object o, or a free one where it is a pipe on which no handle is open.
pub fn outlived(handles: [Handle; HANDLES], object: Object, o: u8) -> Object
    ensures { Outlives handles object o result }
{
    if object.kind < PIPE || is_open(handles, o) {
        return object;
    }
    Object::default()
}

// Of each object, whether a handle is open on it.
fn open_map(handles: [Handle; HANDLES]) -> [bool; OBJECTS]
    ensures { Hits (λ j. on (get_or handles j no_handle)) 64 result 512 }
{
    let mut r = [false; OBJECTS];
    for h in &handles {
        if h.way != EMPTY && h.object < OBJECTS as u8 {
            r[h.object as usize] = true;
        }
    }
    r
}

// An object record, or a free one where it is a pipe whose last handle went.
fn left(x: Object, was: bool, is: bool) -> Object
    ensures { result ≡ outlived_by x was is }
{
    if PIPE <= x.kind && was && !is {
        return Object::default();
    }
    x
}

// The objects without the pipes that had a handle in `before` and have none in `after`.
pub fn reaped(
    objects: [Object; OBJECTS],
    before: [Handle; HANDLES],
    after: [Handle; HANDLES],
) -> [Object; OBJECTS]
    ensures { (rest : Tables) (ss : List Subject) (t : Tables) → all_handles t ≡ all_handles (with_hand empty (hands before)) →
        tables_of rest ss result after ≡ reap (all_handles t) (tables_of rest ss objects after) }
{
    let was = open_map(before);
    let is = open_map(after);
    array::from_fn(|i| left(objects[i], was[i], is[i]))
}

// ---- the ends of pipes

// The handles with a reading end on object `from` at place p of subject s, and a writing end on object `to` at place q; each number modulo how many
// there are.
pub fn with_ends(
    handles: [Handle; HANDLES],
    s: u64,
    p: u64,
    q: u64,
    from: u64,
    to: u64,
) -> [Handle; HANDLES]
    ensures { Handed handles result
        (place (place (hands handles) (s % 32) (p % 16) (some (handle reading (from % 64)))) (s % 32) (q % 16) (some (handle writing (to % 64)))) }
{
    let one = looks::with_handle(handles, s, p, looks::joining(READS, from));
    looks::with_handle(one, s, q, looks::joining(WRITES, to))
}

// ---- the row of one subject ----

// The places of subject s.
pub fn row_of(handles: [Handle; HANDLES], s: usize) -> [Handle; PLACES]
    requires { s < 32 }
    ensures { (p : ℕ) → along result p ≡ hands handles s p }
{
    let mut r = [Handle::default(); PLACES];
    r.copy_from_slice(&handles[s * PLACES..(s + 1) * PLACES]);
    r
}

// The handles with those of subject s made these.
fn with_row(mut handles: [Handle; HANDLES], s: usize, places: [Handle; PLACES]) -> [Handle; HANDLES]
    requires { s < 32 }
    ensures { Handed handles result (row (hands handles) s (along places)) }
{
    handles[s * PLACES..(s + 1) * PLACES].copy_from_slice(&places);
    handles
}

// A handle record, or an empty one where it is marked or a mapping.
fn unless_dropped(h: Handle) -> Handle
    ensures { result ≡ lasting_of h }
{
    if h.mark != 0 || h.way == MAPS {
        return Handle::default();
    }
    h
}

// The places of one subject after an exec: those with a marked handle or a mapping emptied.
pub fn lasting(places: [Handle; PLACES]) -> [Handle; PLACES]
    ensures { (p : ℕ) → along result p ≡ lasting (along places p) }
{
    places.map(unless_dropped)
}

// The handles once subject c has those of s at the same places, once s has none, and once s has run a program; each number modulo how many there are.
pub fn forked(handles: [Handle; HANDLES], s: u64, c: u64) -> [Handle; HANDLES]
    ensures { Handed handles result (row (hands handles) (c % 32) (hands handles (s % 32))) }
{
    let places = row_of(handles, s as usize % SUBJECTS);
    with_row(handles, c as usize % SUBJECTS, places)
}

pub fn vacated(handles: [Handle; HANDLES], s: u64) -> [Handle; HANDLES]
    ensures { Handed handles result (row (hands handles) (s % 32) (λ p. none)) }
{
    with_row(handles, s as usize % SUBJECTS, [Handle::default(); PLACES])
}

pub fn shed(handles: [Handle; HANDLES], s: u64) -> [Handle; HANDLES]
    ensures { Handed handles result (row (hands handles) (s % 32) (λ p. lasting (hands handles (s % 32) p))) }
{
    let i = s as usize % SUBJECTS;
    with_row(handles, i, lasting(row_of(handles, i)))
}

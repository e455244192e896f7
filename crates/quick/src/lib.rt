// Opens and closes that change no need, in place: on the bytes of the struct's parts, of which they read and store the few that the call is about. Whatever else a call
// may be, it is left alone, and None says so (crate `host` tells C 0): then the monitor's own call is to be made. What is never left is said by `Settles` in specs/Parts.antt.
//
// The parts are those of the monitor (`gatekeeper::Monitor`) as they lie in memory, and the two counts. What they stand for is in specs/Parts.antt;
// a record among them is read and stored by the functions of `inplace`.
#![tactic(auto)]

ghost use Rattle.std.specs.Prelude.{◌≡◌, List, [], ◌∷◌, ℕ, length};
ghost use Rattle.gatekeeper.specs.View.{direct};
ghost use Rattle.gatekeeper.specs.Acting.{way_by};
ghost use Rattle.quick.specs.Parts.{tried_number, Tried};

use answers::{Answer, Granted, Refusal};
use gatekeeper::SURE;
use inplace::{HANDLE_BYTES, Parts};
use tables::{EMPTY, Handle, OBJECTS, READS, WRITES, looks};

// The way of a handle for reading, or for writing.
fn way_of(reads: bool) -> u8
    ensures { result ≡ way_by reads }
{
    if reads {
        return READS;
    }
    WRITES
}

// ---- calls 5 and 6

// An open for reading (code 5) or writing (code 6) of object o by subject s at its place p: done where the monitor is sure and the flow falls by the needs, or where no
// flow is asked about.
// The handles and the counts, which are stored in, stand beside the parts that are read: of a `&mut` in a struct the proof doesn't learn what it ends as.
pub fn opened(
    numbers: &[u64],
    subjects: &[u8],
    objects: &[u8],
    handles: &mut [u8],
    needs: &[u16],
    counts: &mut [u64],
    freeze: u8,
    sure: u8,
    code: u64,
    s: u64,
    o: u64,
    p: u64,
) -> Option<Answer>
    ensures { Tried (5 ∷ 6 ∷ []) numbers.now subjects.now objects.now handles.old needs.now counts.old freeze sure
        (direct code s o p 0 0 0) (tried_number result) handles.new counts.new }
{
    let parts = Parts::of(subjects, objects, needs)?;
    let numbers = numbers.as_array::<OBJECTS>()?;
    let handles = handles.as_mut_array::<HANDLE_BYTES>()?;
    let counts = inplace::counts_in(counts)?;
    if sure != SURE {
        return None;
    }
    let reads = code == 5;
    let opens = reads || code == 6;
    if !opens {
        return None;
    }
    let x = inplace::subject_in(parts.subjects, s);
    let i = inplace::slot_in(parts.objects, numbers, o);
    let y = inplace::object_in(parts.objects, i);
    let h = inplace::handle_in(handles, s, p);
    if let Err(refusal) = refusals::of_open(p, x, y, h) {
        return Some(Err(refusal));
    }
    let frozen = refusals::is_frozen(freeze, reads, y);
    if frozen {
        return Some(Err(Refusal::Frozen));
    }
    let mine = inplace::subject_need(parts.needs, s);
    let its = inplace::object_need(parts.needs, i);
    let down = keeping::falls(reads, mine, its);
    if !down {
        return None;
    }
    let new = looks::joining(way_of(reads), i);
    inplace::put(handles, s, p, new);
    inplace::count(counts, 1, 0);
    Some(Ok(Granted::Allowed(y.level)))
}

// ---- call 11

// A close of the handle at place p of subject s: done where the monitor is sure, no need changes by it, and its object outlives it.
pub fn closed(
    subjects: &[u8],
    objects: &[u8],
    handles: &mut [u8],
    needs: &[u16],
    counts: &mut [u64],
    freeze: u8,
    sure: u8,
    s: u64,
    p: u64,
) -> Option<Answer>
    ensures { (ns : List ℕ) → length ns ≡ 64 → Tried (11 ∷ []) ns subjects.now objects.now handles.old needs.now counts.old freeze sure
        (direct 11 s p 0 0 0 0) (tried_number result) handles.new counts.new }
{
    let parts = Parts::of(subjects, objects, needs)?;
    let handles = handles.as_mut_array::<HANDLE_BYTES>()?;
    let counts = inplace::counts_in(counts)?;
    if sure != SURE {
        return None;
    }
    let x = inplace::subject_in(parts.subjects, s);
    let h = inplace::handle_in(handles, s, p);
    if let Err(refusal) = refusals::of_held(x, h) {
        return Some(Err(refusal));
    }
    let number = h.object as u64;
    let y = inplace::object_in(parts.objects, number);
    let mine = inplace::subject_need(parts.needs, s);
    let its = inplace::object_need(parts.needs, number);
    if !inplace::is_quiet(h, y, mine, its) {
        return None;
    }
    let at = looks::slot_of(s, p);
    if !inplace::is_outlived(handles, y, h.object, at) {
        return None;
    }
    inplace::put(
        handles,
        s,
        p,
        Handle {
            way: EMPTY,
            object: 0,
            mark: 0,
        },
    );
    inplace::count(counts, 0, 1);
    Some(Ok(Granted::Allowed(x.level)))
}

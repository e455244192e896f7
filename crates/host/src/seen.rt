// What a host sees of the lent bytes (RULES H17 to H21, H27, H28, H31), without a call: who is live and with which label, and in which group, the handle at a place and
// its object, the live objects from a number on, the freeze, and the kept needs, which can be put right. What is told of an object or a handle loads the 64 slots and
// their numbers, what is told of a group the subjects and the groups; all else reads the few bytes that it tells of.
ghost use Rattle.std.specs.Prelude.{◌≡◌, ◌+◌, ◌*◌, ◌/◌, ◌%◌, ◌<◌, ◌≤◌, eqb, length, drop, get_or};
ghost use Rattle.model.specs.Lists.{from_on};
ghost use Rattle.model.specs.Label.{label};
ghost use Rattle.model.specs.Flow.{subject, object};
ghost use Rattle.model.specs.Tables.{clean, needs};
ghost use Rattle.tables.specs.Records.{held, no_subject, no_handle};
ghost use Rattle.tables.specs.Slots.{single};
ghost use Rattle.tables.specs.Working.{subject_at, handle_at};
ghost use Rattle.gatekeeper.specs.View.{slots, once, kept_need};
ghost use Rattle.stored.specs.State.{records, Sized, subjects_of, objects_of, handles_of, numbers_of, freeze_of, monitor_of, needs_at, need_bytes, Narrow, state_view, state_right, state_bytes, PutRight};
ghost use Rattle.stored.specs.Over.{over};
ghost use Rattle.host.specs.Working.{way_number};
ghost use Rattle.host.specs.Numbers.{sized, seen_entry, seen_group, seen_handle, seen_object, seen_label, SeenNeed, seen_freeze};

use crate::packed;
use gatekeeper::Monitor;
use stored::{
    FREEZE_AT, GROUPS_AT, HANDLES_AT, Kept, NEEDS_AT, NUMBERS_AT, OBJECTS_AT, STATE_BYTES,
    SUBJECTS_AT,
};
use tables::{
    EMPTY, FILE, FREE, HANDLES, Handle, MAPS, NO_FREEZE, OBJECT_NUMBERS, OBJECTS, Object, READS,
    SUBJECTS, Subject, THINGS, looks, slots,
};

// ---- one record, from its bytes

// Value i of N that stand one after the other from an offset on.
fn one_in<T: Kept<W>, const W: usize, const N: usize>(
    state: &[u8; STATE_BYTES],
    at: usize,
    i: usize,
) -> T
    requires there { i < N }
    requires room { at + W * N ≤ state_bytes }
    ensures { (d : T) → result ≡ get_or (records T.of W N (drop at state.now)) i d }
{
    let (values, _) = state[at..].as_chunks::<W>();
    T::from_bytes(&values[i])
}

fn subject_in(state: &[u8; STATE_BYTES], s: u64) -> Subject
    ensures { result ≡ subject_at s (get_or (subjects_of state.now) (s % 32) no_subject) }
{
    looks::subject_at(
        s,
        one_in::<Subject, 3, SUBJECTS>(state, SUBJECTS_AT, s as usize % SUBJECTS),
    )
}

fn handle_in(state: &[u8; STATE_BYTES], s: u64, p: u64) -> Handle
    ensures { result ≡ handle_at s p (get_or (handles_of state.now) (s % 32 * 16 + p % 16) no_handle) }
{
    looks::handle_at(
        s,
        p,
        one_in::<Handle, 3, HANDLES>(state, HANDLES_AT, looks::slot_of(s, p)),
    )
}

// The objects as they count, of slots in use that have one number only the first; and the numbers of all slots.
fn slots_in(state: &[u8; STATE_BYTES]) -> ([Object; OBJECTS], [u64; OBJECTS])
    ensures objects { result.0 ≡ single (objects_of state.now) (numbers_of state.now) }
    ensures numbers { result.1 ≡ numbers_of state.now }
{
    let objects: [Object; OBJECTS] = stored::load_part(&state[OBJECTS_AT..]);
    let numbers: [u64; OBJECTS] = stored::load_part(&state[NUMBERS_AT..]);
    (slots::single(objects, numbers), numbers)
}

// A kept need as a host sees it: its set, and its level.
fn number_of(n: u16) -> u32
    ensures { result ≡ seen_label n }
{
    packed((n % 256) as u8, 0, (n / 256) as u8)
}

// ---- exported

// 65,536 times the set of subject s, 256, and its level; 0 where it is not live, and for bytes of another length.
#[unsafe(no_mangle)]
pub extern "C" fn gatekeeper_subject(state: &[u8], s: u64) -> u32
    ensures { result ≡ sized state.now (seen_entry ((state_view state.now).at (subject s))) 0 }
{
    let Some(state) = state.as_array() else {
        return 0;
    };
    let x = subject_in(state, s);
    if x.live == 0 {
        return 0;
    }
    packed(x.shops, 1, x.level)
}

// 256 and the lowest number in the group of subject s; 0 where it is not live, and for bytes of another length.
#[unsafe(no_mangle)]
pub extern "C" fn gatekeeper_group(state: &[u8], s: u64) -> u32
    ensures { result ≡ sized state.now (seen_group (state_view state.now) s) 0 }
{
    let Some(state) = state.as_array() else {
        return 0;
    };
    if subject_in(state, s).live == 0 {
        return 0;
    }
    let subjects: [Subject; SUBJECTS] = stored::load_part(&state[SUBJECTS_AT..]);
    let groups: [u8; SUBJECTS] = stored::load_part(&state[GROUPS_AT..]);
    let leads = groups::leads(subjects, groups);
    packed(0, 1, leads[s as usize % SUBJECTS])
}

// 65,536 times the set of object o, 256 times its kind, and its level; 0 where it is not live, and for bytes of another length.
#[unsafe(no_mangle)]
pub extern "C" fn gatekeeper_object(state: &[u8], o: u64) -> u32
    ensures { result ≡ sized state.now (seen_entry ((state_view state.now).at (object o))) 0 }
{
    let Some(state) = state.as_array() else {
        return 0;
    };
    let (objects, numbers) = slots_in(state);
    let y = looks::object_of(objects, slots::slot_of(objects, numbers, o));
    match y.kind {
        FREE => 0,
        FILE => packed(y.shops, 1, y.level),
        _ => packed(y.shops, 2, y.level),
    }
}

// The lowest number from o on of a live object; 0 where there is none, and for bytes of another length.
#[unsafe(no_mangle)]
pub extern "C" fn gatekeeper_object_from(state: &[u8], o: u64) -> u64
    ensures { result ≡ sized state.now (from_on o (state_view state.now).numbers) 0 }
{
    let Some(state) = state.as_array() else {
        return 0;
    };
    let (objects, numbers) = slots_in(state);
    slots::from_on(objects, numbers, o)
}

// The number of a way that is not EMPTY.
fn way_number(way: u8) -> u8
    ensures { result ≡ way_number way }
{
    match way {
        MAPS => 3,
        READS => 1,
        _ => 2,
    }
}

// The handle at place p of subject s as it counts: one that dangles is an empty place.
fn kept_in(state: &[u8; STATE_BYTES], s: u64, p: u64) -> Handle
    ensures { held result ≡ (clean (slots (once (monitor_of state.now)))).hand s p }
{
    let h = handle_in(state, s, p);
    let (objects, _) = slots_in(state);
    handles::kept(
        h,
        subject_in(state, s),
        looks::object_of(objects, u64::from(h.object)),
    )
}

// The handle at place p of subject s, as a number: 256 times its way, and 256 times 256 where it is marked; 0 where there is none, also where it dangles, and for bytes of another
// length.
#[unsafe(no_mangle)]
pub extern "C" fn gatekeeper_handle(state: &[u8], s: u64, p: u64) -> u32
    ensures { result ≡ sized state.now (seen_handle ((clean (state_view state.now)).hand s p)) 0 }
{
    let Some(state) = state.as_array() else {
        return 0;
    };
    let k = kept_in(state, s, p);
    if k.way == EMPTY {
        return 0;
    }
    packed(u8::from(k.mark != 0), way_number(k.way), 0)
}

// The number of its object; 0 where there is no handle, and for bytes of another length.
#[unsafe(no_mangle)]
pub extern "C" fn gatekeeper_handle_object(state: &[u8], s: u64, p: u64) -> u64
    ensures { result ≡ sized state.now (seen_object ((clean (state_view state.now)).hand s p)) 0 }
{
    let Some(state) = state.as_array() else {
        return 0;
    };
    let k = kept_in(state, s, p);
    if k.way == EMPTY {
        return 0;
    }
    one_in::<u64, 8, OBJECTS>(state, NUMBERS_AT, k.object as usize % OBJECTS)
}

// The level from which on files are frozen, NO_FREEZE where none is; 0 for bytes of another length.
#[unsafe(no_mangle)]
pub extern "C" fn gatekeeper_frozen_from(state: &[u8]) -> u32
    ensures { result ≡ sized state.now (seen_freeze (freeze_of state.now)) 0 }
{
    let Some(state) = state.as_array::<STATE_BYTES>() else {
        return 0;
    };
    u32::from(state[FREEZE_AT].min(NO_FREEZE))
}

// The kept need of subject s, and of object o; 0 where it is not live, and for bytes of another length. Where the bytes are right, it is the need.
#[unsafe(no_mangle)]
pub extern "C" fn gatekeeper_subject_need(state: &[u8], s: u64) -> u32
    ensures kept { result ≡ sized state.now (seen_label (kept_need (monitor_of state.now) s)) 0 }
    ensures right { Sized state.now → state_right state.now →
        label (result % 256) (result / 65536) ≡ needs (clean (state_view state.now)) (subject s) }
{
    let Some(state) = state.as_array() else {
        return 0;
    };
    if subject_in(state, s).live == 0 {
        return 0;
    }
    number_of(one_in::<u16, 2, THINGS>(state, NEEDS_AT, s as usize % SUBJECTS))
}

#[unsafe(no_mangle)]
pub extern "C" fn gatekeeper_object_need(state: &[u8], o: u64) -> u32
    ensures kept { SeenNeed state.now o result }
    ensures right { Sized state.now → state_right state.now →
        label (result % 256) (result / 65536) ≡ needs (clean (state_view state.now)) (object o) }
{
    let Some(state) = state.as_array() else {
        return 0;
    };
    let (objects, numbers) = slots_in(state);
    let i = slots::slot_of(objects, numbers, o);
    if OBJECT_NUMBERS <= i {
        return 0;
    }
    let k = SUBJECTS + (i % OBJECT_NUMBERS) as usize;
    number_of(one_in::<u16, 2, THINGS>(state, NEEDS_AT, k))
}

// The kept needs of a monitor over those that stand in the bytes.
fn store_needs(state: &mut [u8; STATE_BYTES], m: Monitor)
    ensures bytes { state.new ≡ over needs_at (need_bytes m.needs) state.old }
    ensures all { length m.needs ≡ 96 }
    ensures narrow { Narrow 16 m.needs }
{
    stored::store_part(&mut state[NEEDS_AT..], m.needs);
}

// Works the kept needs out anew, for bytes that were brought in from outside; false, and nothing is touched, where they have another length.
#[unsafe(no_mangle)]
pub extern "C" fn gatekeeper_put_right(state: &mut [u8]) -> bool
    ensures answer { result ≡ eqb (length state.old) state_bytes }
    ensures bytes { Sized state.old → PutRight state.old state.new }
    ensures other { (Sized state.old → ⊥) → state.new ≡ state.old }
{
    let Some(state) = state.as_mut_array() else {
        return false;
    };
    let righted = stored::load_monitor(state).righted();
    store_needs(state, righted);
    true
}

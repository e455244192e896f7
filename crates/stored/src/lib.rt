// A monitor and its tally as bytes that a host keeps (RULES H4 to H10, H15, H16, H26, H30): loaded from them and stored into them. They are laid out as in specs/State.antt. Every byte
// string of the length is a monitor. That the bytes have that length is what their type says: whoever is handed bytes tests it once (crate `host`).
#![tactic(auto)]

ghost use Rattle.std.specs.Prelude.{◌≡◌, ◌*◌, ◌≤◌, ◌<◌, List, [], ℕ, length, refl, if◌then◌else◌, nat_lt, slice_index_or};
ghost use Rattle.stored.specs.State.{records, flat, whole, digits, monitor_of, tally_of, Stands};
ghost use Rattle.stored.specs.State.{subject_of, subject_record, object_of, object_record, handle_of, handle_record, byte_of, byte_record};
ghost use Rattle.stored.specs.Widths.{length_digits};
ghost use Rattle.std.proofs.Common.{rules};
ghost use Rattle.stored.specs.Over.{over};

use gatekeeper::Monitor;
use tables::{HANDLES, Handle, OBJECTS, Object, SUBJECTS, Subject, THINGS};
use tally::Tally;

// Where the parts of a state stand: the subjects at 0, three bytes each; the objects and the handles likewise; the two counts, eight bytes each; the freeze,
// one byte; the kept needs, two bytes each; the objects' numbers, eight bytes each; the groups, one byte each.
pub const SUBJECTS_AT: usize = 0;

pub const OBJECTS_AT: usize = 3 * SUBJECTS;

pub const HANDLES_AT: usize = OBJECTS_AT + 3 * OBJECTS;

pub const MADE_AT: usize = HANDLES_AT + 3 * HANDLES;

pub const GONE_AT: usize = MADE_AT + 8;

pub const FREEZE_AT: usize = GONE_AT + 8;

pub const NEEDS_AT: usize = FREEZE_AT + 1;

pub const NUMBERS_AT: usize = NEEDS_AT + 2 * THINGS;

pub const GROUPS_AT: usize = NUMBERS_AT + 8 * OBJECTS;

// How many bytes a monitor and its tally take.
pub const STATE_BYTES: usize = GROUPS_AT + SUBJECTS;

// ---- one value, from its bytes and to them

// What is kept as W bytes.
pub trait Kept<const W: usize>: Copy {
    // What bytes stand for, and as which bytes a value is stored.
    ghost of: { List ℕ → Self };

    ghost to: { Self → List ℕ };

    fn from_bytes(bytes: &[u8; W]) -> Self
        ensures { result ≡ of bytes.now };

    fn to_bytes(self) -> [u8; W]
        ensures { result ≡ to self };

    // Few bytes, and as many for each value.
    ghost few: { (0 < W) × (W ≤ 8) };

    ghost wide: { (x : Self) → length (to x) ≡ W };
}

// The first byte of a record of an object is one of KINDS that mean something: 1 is a file and 2 a pipe. That of a handle is one of WAYS: 1 reads, 2 writes and 3 is a mapping.
pub const KINDS: u8 = 3;

pub const WAYS: u8 = 4;

// A byte that means something, which is one below `known`, and `other` in the place of any that does not.
fn known_or(known: u8, b: u8, other: u8) -> u8
    ensures { result ≡ (if nat_lt b known then b else other) }
{
    if b < known { b } else { other }
}

impl Kept<3> for Subject {
    ghost of = { subject_of };

    ghost to = { subject_record };

    ghost few = { (Prim.search rules, Prim.search rules) };

    ghost wide = { λ _. refl };

    fn from_bytes(bytes: &[u8; 3]) -> Subject {
        let [live, level, shops] = *bytes;
        Subject {
            live: u8::from(live == 1),
            level,
            shops,
        }
    }

    fn to_bytes(self) -> [u8; 3] {
        [u8::from(self.live != 0), self.level, self.shops]
    }
}

impl Kept<3> for Object {
    ghost of = { object_of };

    ghost to = { object_record };

    ghost few = { (Prim.search rules, Prim.search rules) };

    ghost wide = { λ _. refl };

    fn from_bytes(bytes: &[u8; 3]) -> Object {
        let [kind, level, shops] = *bytes;
        Object {
            kind: known_or(KINDS, kind, 0),
            level,
            shops,
        }
    }

    fn to_bytes(self) -> [u8; 3] {
        [known_or(KINDS, self.kind, 2), self.level, self.shops]
    }
}

impl Kept<3> for Handle {
    ghost of = { handle_of };

    ghost to = { handle_record };

    ghost few = { (Prim.search rules, Prim.search rules) };

    ghost wide = { λ _. refl };

    fn from_bytes(bytes: &[u8; 3]) -> Handle {
        let [way, object, mark] = *bytes;
        Handle {
            way: known_or(WAYS, way, 0),
            object,
            mark: u8::from(mark == 1),
        }
    }

    fn to_bytes(self) -> [u8; 3] {
        [
            known_or(WAYS, self.way, 2),
            self.object,
            u8::from(self.mark != 0),
        ]
    }
}

// A group is one byte, as it is.
impl Kept<1> for u8 {
    ghost of = { byte_of };

    ghost to = { byte_record };

    ghost few = { (Prim.search rules, Prim.search rules) };

    ghost wide = { λ _. refl };

    fn from_bytes(bytes: &[u8; 1]) -> u8 {
        bytes[0]
    }

    fn to_bytes(self) -> [u8; 1] {
        [self]
    }
}

// A label is its set, and then its level; a number its bytes, lowest first.
impl Kept<2> for u16 {
    ghost of = { whole };

    ghost to = { digits 2 };

    ghost few = { (Prim.search rules, Prim.search rules) };

    ghost wide = { length_digits 2 };

    fn from_bytes(bytes: &[u8; 2]) -> u16 {
        u16::from_le_bytes(*bytes)
    }

    fn to_bytes(self) -> [u8; 2] {
        u16::to_le_bytes(self)
    }
}

impl Kept<8> for u64 {
    ghost of = { whole };

    ghost to = { digits 8 };

    ghost few = { (Prim.search rules, Prim.search rules) };

    ghost wide = { length_digits 8 };

    fn from_bytes(bytes: &[u8; 8]) -> u64 {
        u64::from_le_bytes(*bytes)
    }

    fn to_bytes(self) -> [u8; 8] {
        u64::to_le_bytes(self)
    }
}

// ---- a part, from its bytes and to them

// The values in the first bytes.
pub fn load_part<T: Kept<W>, const W: usize, const N: usize>(from: &[u8]) -> [T; N]
    requires { W * N ≤ length from.now }
    ensures { result ≡ records T.of W N from.now }
{
    let (chunks, _) = from.as_chunks::<W>();
    std::array::from_fn(
        |i: usize| -> T
            requires { i < length chunks.now }
            ensures { result ≡ T.of (slice_index_or chunks.entry.now i []) }
        { T::from_bytes(&chunks[i]) },
    )
}

pub fn store_part<T: Kept<W>, const W: usize, const N: usize>(to: &mut [u8], part: [T; N])
    requires { W * N ≤ length to.old }
    ensures { to.new ≡ over 0 (flat T.to part) to.old }
{
    for (i, x) in part.iter().enumerate() {
        to[W * i..W * i + W].copy_from_slice(&x.to_bytes());
    }
}

// ---- a monitor and its tally

pub fn load_monitor(state: &[u8; STATE_BYTES]) -> Monitor
    ensures { result ≡ monitor_of state.now }
{
    Monitor {
        numbers: load_part(&state[NUMBERS_AT..]),
        subjects: load_part(&state[SUBJECTS_AT..]),
        objects: load_part(&state[OBJECTS_AT..]),
        handles: load_part(&state[HANDLES_AT..]),
        freeze: state[FREEZE_AT],
        needs: load_part(&state[NEEDS_AT..]),
        groups: load_part(&state[GROUPS_AT..]),
        sure: 0,
    }
}

pub fn load_tally(state: &[u8; STATE_BYTES]) -> Tally
    ensures { result ≡ tally_of state.now }
{
    let [made, gone]: [u64; 2] = load_part(&state[MADE_AT..]);
    Tally { made, gone }
}

pub fn store(state: &mut [u8; STATE_BYTES], monitor: Monitor, tally: Tally)
    ensures { Stands state.new monitor tally }
{
    store_part(&mut state[SUBJECTS_AT..], monitor.subjects);
    store_part(&mut state[OBJECTS_AT..], monitor.objects);
    store_part(&mut state[HANDLES_AT..], monitor.handles);
    store_part(&mut state[MADE_AT..], [tally.made, tally.gone]);
    state[FREEZE_AT] = monitor.freeze;
    store_part(&mut state[NEEDS_AT..], monitor.needs);
    store_part(&mut state[NUMBERS_AT..], monitor.numbers);
    store_part(&mut state[GROUPS_AT..], monitor.groups);
}

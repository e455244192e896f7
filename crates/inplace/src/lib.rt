// Records of a monitor's parts, in place: one read from the bytes of a part, or stored in them, and what is asked of such records before an open or a close is done there
// (crate `quick`).
//
// The parts are those of the monitor (`gatekeeper::Monitor`) as they lie in memory, and the two counts. What their bytes stand for is in specs/Bytes.antt.
#![tactic(auto)]

ghost use Rattle.std.specs.Prelude.{◌≡◌, ◌+◌, ◌*◌, ◌%◌, ◌^◌, ◌≤◌, ◌<◌, [], ◌∷◌, true, ◌&&◌, ◌⊎◌, ◌↔◌, if◌then◌else◌, ◌==◌, slice_index, slice_index_or, slice_set};
ghost use Rattle.std.specs.Prelude.{length, ◌≢◌, IfSome, IsSome, MatchOption};
ghost use Rattle.std.specs.Borrow.{sem};
ghost use Rattle.inplace.specs.Counts.{LendsCounts};
ghost use Rattle.model.specs.Tally.{wrapped};
ghost use Rattle.tables.specs.Records.{reads_by, no_subject, no_object, no_handle};
ghost use Rattle.tables.specs.Slots.{slot_used, Found};
ghost use Rattle.tables.specs.Working.{subject_at, object_at, handle_at};
ghost use Rattle.labels.specs.Codes.{coded};
ghost use Rattle.handles.specs.Working.{on};
ghost use Rattle.passes.specs.Working.{spare_by, backed_by};
ghost use Rattle.inplace.specs.Bytes.{subjects_in, objects_in, handles_in, Beside};

use tables::{
    EMPTY, FILE, FREE, HANDLES, Handle, OBJECT_NUMBERS, OBJECTS, Object, SUBJECTS, Subject, THINGS,
    looks,
};

// How many bytes each part of records has.
pub const SUBJECT_BYTES: usize = 3 * SUBJECTS;

pub const OBJECT_BYTES: usize = 3 * OBJECTS;

pub const HANDLE_BYTES: usize = 3 * HANDLES;

// ---- one record

// The three bytes of the record at index i of a part.
fn record_in<const N: usize>(part: &[u8; N], i: usize) -> [u8; 3]
    requires { (3 * i + 3 ≤ N) × (N < 2 ^ 16) }
    ensures { result ≡ slice_index part.now (3 * i) ∷ slice_index part.now (3 * i + 1) ∷ slice_index part.now (3 * i + 1 + 1) ∷ [] }
{
    [part[3 * i], part[3 * i + 1], part[3 * i + 2]]
}

pub fn subject_in(subjects: &[u8; SUBJECT_BYTES], s: u64) -> Subject
    ensures there { result ≡ subject_at s (slice_index_or (subjects_in subjects.now) (s % 32) no_subject) }
    ensures byte { result.level < 256 }
{
    let [live, level, shops] = record_in(subjects, s as usize % SUBJECTS);
    looks::subject_at(s, Subject { live, level, shops })
}

pub fn object_in(objects: &[u8; OBJECT_BYTES], o: u64) -> Object
    ensures there { result ≡ object_at o (slice_index_or (objects_in objects.now) (o % 64) no_object) }
    ensures byte { result.level < 256 }
{
    let [kind, level, shops] = record_in(objects, o as usize % OBJECTS);
    looks::object_at(o, Object { kind, level, shops })
}

pub fn handle_in(handles: &[u8; HANDLE_BYTES], s: u64, p: u64) -> Handle
    ensures { result ≡ handle_at s p (slice_index_or (handles_in handles.now) (s % 32 * 16 + p % 16) no_handle) }
{
    let [way, object, mark] = record_in(handles, looks::slot_of(s, p));
    looks::handle_at(s, p, Handle { way, object, mark })
}

pub fn put(handles: &mut [u8; HANDLE_BYTES], s: u64, p: u64, h: Handle)
    ensures { handles_in handles.new ≡ slice_set (handles_in handles.old) (s % 32 * 16 + p % 16) h }
{
    let at = 3 * looks::slot_of(s, p);
    handles[at] = h.way;
    handles[at + 1] = h.object;
    handles[at + 2] = h.mark;
}

// The need of subject s, and of object o, each modulo how many there are.
pub fn subject_need(needs: &[u16; THINGS], s: u64) -> u16
    ensures { result ≡ slice_index needs.now (s % 32) }
{
    needs[s as usize % SUBJECTS]
}

pub fn object_need(needs: &[u16; THINGS], o: u64) -> u16
    ensures { result ≡ slice_index needs.now (32 + o % 64) }
{
    needs[SUBJECTS + o as usize % OBJECTS]
}

// So many more handles made, and gone.
pub fn count(counts: &mut [u64; 2], made: u64, gone: u64)
    ensures { counts.new ≡ slice_set (slice_set counts.old 0 (wrapped (slice_index counts.old 0 + made))) 1 (wrapped (slice_index counts.old 1 + gone)) }
{
    counts[0] = counts[0].wrapping_add(made);
    counts[1] = counts[1].wrapping_add(gone);
}

// ---- what is asked first

// The parts that a call reads and does not change.
#[derive(Clone, Copy)]
pub struct Parts<'a> {
    pub subjects: &'a [u8; SUBJECT_BYTES],
    pub objects: &'a [u8; OBJECT_BYTES],
    pub needs: &'a [u16; THINGS],
}

impl<'a> Parts<'a> {
    // The parts where they have their lengths.
    pub fn of(subjects: &'a [u8], objects: &'a [u8], needs: &'a [u16]) -> Option<Parts<'a>>
        ensures same { IfSome result (λ x. (x.subjects.now ≡ subjects.now) × (x.objects.now ≡ objects.now) × (x.needs.now ≡ needs.now)) }
        ensures whole { IsSome result ↔ ((length subjects.now ≡ 96) × (length objects.now ≡ 192) × (length needs.now ≡ 96)) }
    {
        Some(Parts {
            subjects: subjects.as_array()?,
            objects: objects.as_array()?,
            needs: needs.as_array()?,
        })
    }
}

// The two counts, where there are two.
pub fn counts_in(counts: &mut [u64]) -> Option<&mut [u64; 2]>
    ensures* writes_back { sem 𝓛 (LendsCounts counts.entry result) }
    ensures cases { MatchOption result (length counts.old ≢ 2) (λ x. (length counts.old ≡ 2) × (x.now ≡ counts.old)) }
{
    counts.as_mut_array()
}

// The handle at index i is on object o. (Its object first: `is_beside` asks up to 511 handles, of which most are on another.)
fn is_on(handles: &[u8; HANDLE_BYTES], i: usize, o: u8) -> bool
    requires { i < 512 }
    ensures { result ≡ on (slice_index_or (handles_in handles.now) i no_handle) o }
{
    handles[3 * i + 1] == o && handles[3 * i] != EMPTY
}

// A handle other than that at index `at` is on object o. It looks from there on, and then from the front.
fn is_beside(handles: &[u8; HANDLE_BYTES], o: u8, at: usize) -> bool
    requires { at < 512 }
    ensures { (result ≡ true) ↔ Beside (handles_in handles.now) o at }
{
    (1..HANDLES).any(|k| is_on(handles, (at + k) % HANDLES, o))
}

// ---- the slot of an object

// Slot i, modulo how many there are, is in use and has the number o.
fn is_at(objects: &[u8; OBJECT_BYTES], numbers: &[u64; OBJECTS], i: u64, o: u64) -> bool
    ensures { result ≡ (slot_used (objects_in objects.now) (i % 64) && slice_index numbers.now (i % 64) == o) }
{
    let j = i as usize % OBJECTS;
    numbers[j] == o && objects[3 * j] != FREE
}

// The slot of object o, which is looked for at o modulo OBJECTS first; OBJECTS where it is not live.
pub fn slot_in(objects: &[u8; OBJECT_BYTES], numbers: &[u64; OBJECTS], o: u64) -> u64
    ensures { Found (objects_in objects.now) numbers.now o result }
{
    if is_at(objects, numbers, o, o) {
        return o % OBJECT_NUMBERS;
    }
    for i in 0..OBJECT_NUMBERS {
        if is_at(objects, numbers, i, o) {
            return i;
        }
    }
    OBJECT_NUMBERS
}

// ---- what is asked of a close

// No need changes where subject s closes handle h, which is on object y: its flow is spare by what y demands by itself.
pub fn is_quiet(h: Handle, y: Object, mine: u16, its: u16) -> bool
    ensures { result ≡ spare_by (coded (if reads_by h.way then mine else its)) (coded (if reads_by h.way then its else mine)) (backed_by h y) }
{
    let reads = looks::is_reading(h.way);
    let source = keeping::chosen(reads, its, mine);
    let end = keeping::chosen(reads, mine, its);
    let own = keeping::backing(h, y);
    keeping::is_spare(end, source, own)
}

// The object y of a handle outlives it: it is a file, or another handle is on it.
pub fn is_outlived(handles: &[u8; HANDLE_BYTES], y: Object, o: u8, at: usize) -> bool
    requires { at < 512 }
    ensures { (result ≡ true) ↔ ((y.kind < 2) ⊎ Beside (handles_in handles.now) o at) }
{
    y.kind <= FILE || is_beside(handles, o, at)
}

// The record at any number that a call names, what its way says, and what a record becomes where something falls.
ghost use Rattle.std.specs.Prelude.{◌≡◌, ◌+◌, ◌*◌, ◌%◌, ◌<◌, get_or, set};
ghost use Rattle.model.specs.Label.{label};
ghost use Rattle.labels.specs.Codes.{coded};
ghost use Rattle.tables.specs.Records.{reads_by, no_subject, no_object, no_handle};
ghost use Rattle.tables.specs.Working.{subject_at, object_at, handle_at, joining, fallen_by, sunken_by, writes_by};

use crate::{
    EMPTY, FILE, HANDLES, Handle, MAPS, OBJECTS, Object, PLACES, READS, SUBJECTS, Subject,
};
use labels::Label;

// (One for each record: `Default` says no value in a contract, so one for all could not say which record it gives.)
// x, which stands at number s modulo SUBJECTS; one that is not live where s is out of range.
pub fn subject_at(s: u64, x: Subject) -> Subject
    ensures { result ≡ subject_at s x }
{
    if s < SUBJECTS as u64 {
        x
    } else {
        Subject::default()
    }
}

// y, which stands in slot o modulo OBJECTS; a free one where o is out of range.
pub fn object_at(o: u64, y: Object) -> Object
    ensures { result ≡ object_at o y }
{
    if o < OBJECTS as u64 {
        y
    } else {
        Object::default()
    }
}

// h, which stands at place p modulo PLACES of subject s modulo SUBJECTS; an empty one where either is out of range.
pub fn handle_at(s: u64, p: u64, h: Handle) -> Handle
    ensures { result ≡ handle_at s p h }
{
    if s < SUBJECTS as u64 && p < PLACES as u64 {
        h
    } else {
        Handle::default()
    }
}

// The record of subject s, and of slot o: one that is not in use where the number is out of range.
pub fn subject_of(subjects: [Subject; SUBJECTS], s: u64) -> Subject
    ensures { result ≡ subject_at s (get_or subjects (s % 32) no_subject) }
{
    subjects.get(s as usize).copied().unwrap_or_default()
}

pub fn object_of(objects: [Object; OBJECTS], o: u64) -> Object
    ensures { result ≡ object_at o (get_or objects (o % 64) no_object) }
{
    objects.get(o as usize).copied().unwrap_or_default()
}

// Which handle is that at place p of subject s, each modulo how many there are.
pub fn slot_of(s: u64, p: u64) -> usize
    ensures { result ≡ s % 32 * 16 + p % 16 }
{
    s as usize % SUBJECTS * PLACES + p as usize % PLACES
}

// The record at place p of subject s; an empty one where either is out of range.
pub fn handle_of(handles: [Handle; HANDLES], s: u64, p: u64) -> Handle
    ensures { result ≡ handle_at s p (get_or handles (s % 32 * 16 + p % 16) no_handle) }
{
    handle_at(s, p, handles[slot_of(s, p)])
}

// A handle that is placed anew: of this way, on object o modulo how many there are.
pub fn joining(way: u8, o: u64) -> Handle
    ensures { result ≡ joining way o }
{
    Handle {
        way,
        object: (o % OBJECTS as u64) as u8,
        mark: 0,
    }
}

// The handles with h at place p of subject s, each modulo how many there are.
pub fn with_handle(mut handles: [Handle; HANDLES], s: u64, p: u64, h: Handle) -> [Handle; HANDLES]
    ensures { result ≡ set handles (s % 32 * 16 + p % 16) h }
{
    handles[slot_of(s, p)] = h;
    handles
}

// The array with x at index i modulo how many there are.
pub fn with<T: Copy, const N: usize>(mut xs: [T; N], i: u64, x: T) -> [T; N]
    requires { 0 < N }
    ensures { result ≡ set xs (i % N) x }
{
    xs[i as usize % N] = x;
    xs
}

// The subjects with x at number s, and the objects with y at number o, each modulo how many there are: `with`, named for callers.
pub fn with_subject(subjects: [Subject; SUBJECTS], s: u64, x: Subject) -> [Subject; SUBJECTS]
    ensures { result ≡ set subjects (s % 32) x }
{
    with(subjects, s, x)
}

pub fn with_object(objects: [Object; OBJECTS], o: u64, y: Object) -> [Object; OBJECTS]
    ensures { result ≡ set objects (o % 64) y }
{
    with(objects, o, y)
}

// A handle of this way reads: a mapping does, too.
pub fn is_reading(way: u8) -> bool
    ensures { result ≡ reads_by way }
{
    way == READS || way == MAPS
}

// A handle of this way writes; an empty place has none.
pub fn is_writing(way: u8) -> bool
    ensures { result ≡ writes_by way }
{
    way != EMPTY && !is_reading(way)
}

// The label of a subject, and of an object, as one number.
pub fn subject_label(x: Subject) -> u16
    ensures { coded result ≡ label x.level x.shops }
{
    x.label().code()
}

pub fn object_label(y: Object) -> u16
    ensures { coded result ≡ label y.level y.shops }
{
    y.label().code()
}

// A live subject that takes in something of this label: it falls to the smaller level and the common set.
pub fn fallen(x: Subject, label: Label) -> Subject
    ensures { result ≡ fallen_by x label.level label.shops }
{
    Subject {
        level: x.level.min(label.level),
        shops: x.shops & label.shops,
        ..x
    }
}

// An object that something of this label is written to: a pipe falls, a file keeps its own.
pub fn sunken(y: Object, label: Label) -> Object
    ensures { result ≡ sunken_by y label.level label.shops }
{
    if y.kind == FILE {
        return y;
    }
    Object {
        level: y.level.min(label.level),
        shops: y.shops & label.shops,
        ..y
    }
}

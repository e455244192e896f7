// The conditions of RULES R2 to R8, R16 and R17 over the few records that a call looks at: for each call its refusal, where one
// of them holds, asked in the order of the rules. R9 and R10 ask whole tables: the caller asks them next, and `last` has their order and that of R15, which
// goes before them.
//
// The records are those at the numbers that the call names, empty ones where a number is out of range (`looks`); of an object the number is that of its slot. That
// there is no room for a new object is told by a slot that is none of the OBJECTS, which is what `Room` in specs/Refusing.antt asks of the caller. Which tables the records
// are of stands in front of each promise, and in no type: the records are the C struct's, and no tables are passed.
#![tactic(auto)]

ghost use Rattle.std.specs.Prelude.{◌≡◌, not, ◌||◌, ℕ, cond, eqb, leb};
ghost use Rattle.model.specs.Label.{label, in_scale};
ghost use Rattle.model.specs.Flow.{subject, object};
ghost use Rattle.model.specs.Tables.{Tables, Dir, reading, writing};
ghost use Rattle.model.specs.Invariant.{Wf};
ghost use Rattle.model.specs.Calls.{Call, admit, register, create, make_pipe, opens, access, fork, thread, exec, close, exit, retire, maps, mark, freeze, connect, thawed, broken};
ghost use Rattle.tables.specs.Records.{subject_entry, object_entry, held};
ghost use Rattle.refusals.specs.Refusing.{Room, Refuses, Late, Refused, direction};
ghost use Rattle.answers.specs.Telling.{number_in};
ghost use Rattle.tables.specs.Working.{used_subject, used_object, used_place};

use answers::Refusal;
use labels::EVERY_SHOP;
use tables::{
    EMPTY, FILE, FREE, HIGHEST, Handle, NO_FREEZE, OBJECT_NUMBERS, Object, PIPE, PLACES, SUBJECTS,
    Subject, looks,
};

// RULES R3, and RULES R7 of a place that a handle is to take.
fn is_subject_used(s: u64, x: Subject) -> bool
    ensures { result ≡ used_subject s x }
{
    SUBJECTS as u64 <= s || x.live != 0
}

fn is_object_used(y: Object) -> bool
    ensures { result ≡ used_object y }
{
    y.kind != FREE
}

fn is_place_used(p: u64, h: Handle) -> bool
    ensures { result ≡ used_place p h }
{
    PLACES as u64 <= p || h.way != EMPTY
}

// RULES R7 of two places that handles are to take.
fn are_ends_used(p: u64, q: u64, h: Handle, k: Handle) -> bool
    ensures { result ≡ (used_place p h || used_place q k) }
{
    is_place_used(p, h) || is_place_used(q, k)
}

// RULES R6 of a label that a call names: the level, or the set, is too large.
fn is_off(level: u64, shops: u64) -> bool
    ensures { result ≡ not (in_scale (label level shops)) }
{
    HIGHEST < level || EVERY_SHOP < shops
}

// RULES R3 and R17 of a new object; y stands in the slot.
fn room(slot: u64, y: Object) -> Result<(), Refusal>
    ensures { number_in result ≡ cond (used_object y) 3 (cond (leb 64 slot) 17 0) }
{
    if is_object_used(y) {
        return Err(Refusal::NumberTaken);
    }
    if OBJECT_NUMBERS <= slot {
        return Err(Refusal::TooManyObjects);
    }
    Ok(())
}

// RULES R2, R3 and R17 of a call by which x makes an object; y stands in the slot.
fn made(slot: u64, x: Subject, y: Object) -> Result<(), Refusal>
    ensures { number_in result ≡ cond (eqb x.live 0) 2 (cond (used_object y) 3 (cond (leb 64 slot) 17 0)) }
{
    if x.live == 0 {
        return Err(Refusal::NoSubject);
    }
    room(slot, y)
}

// Call 1; x stands at s.
pub fn of_admit(s: u64, level: u64, shops: u64, x: Subject) -> Result<(), Refusal>
    ensures { (t : Tables) → Wf t → t.at (subject s) ≡ subject_entry x → Refuses t (admit s (label level shops)) (number_in result) }
{
    if is_subject_used(s, x) {
        return Err(Refusal::NumberTaken);
    }
    if is_off(level, shops) {
        return Err(Refusal::LevelTooHigh);
    }
    Ok(())
}

// Call 2; y stands at o.
pub fn of_register(o: u64, level: u64, shops: u64, y: Object) -> Result<(), Refusal>
    ensures { (t : Tables) → Wf t → t.at (object o) ≡ object_entry y → Room t (register o (label level shops)) →
        Refuses t (register o (label level shops)) (number_in result) }
{
    room(o, y)?;
    if is_off(level, shops) {
        return Err(Refusal::LevelTooHigh);
    }
    Ok(())
}

// Call 3; x stands at s, y at o.
pub fn of_create(o: u64, x: Subject, y: Object) -> Result<(), Refusal>
    ensures { (t : Tables) (s : ℕ) → Wf t → t.at (subject s) ≡ subject_entry x → t.at (object o) ≡ object_entry y →
        Room t (create s o) → Refuses t (create s o) (number_in result) }
{
    made(o, x, y)
}

// Call 4; x stands at s, y at o, h at place r and k at place w.
pub fn of_pipe(
    o: u64,
    r: u64,
    w: u64,
    x: Subject,
    y: Object,
    h: Handle,
    k: Handle,
) -> Result<(), Refusal>
    ensures { (t : Tables) (s : ℕ) → Wf t → t.at (subject s) ≡ subject_entry x → t.at (object o) ≡ object_entry y →
        t.hand s r ≡ held h → t.hand s w ≡ held k → Room t (make_pipe s o r w) → Refuses t (make_pipe s o r w) (number_in result) }
{
    made(o, x, y)?;
    if are_ends_used(r, w, h, k) || r == w {
        return Err(Refusal::PlaceUnfit);
    }
    Ok(())
}

// Call 17; x stands at s and z at u, y at a and v at b, h and k at the places p and q of s, i and j at those of u.
pub fn of_connect(
    s: u64,
    u: u64,
    a: u64,
    b: u64,
    p: u64,
    q: u64,
    x: Subject,
    z: Subject,
    y: Object,
    v: Object,
    h: Handle,
    k: Handle,
    i: Handle,
    j: Handle,
) -> Result<(), Refusal>
    ensures { (t : Tables) → Wf t → t.at (subject s) ≡ subject_entry x → t.at (subject u) ≡ subject_entry z →
        t.at (object a) ≡ object_entry y → t.at (object b) ≡ object_entry v →
        t.hand s p ≡ held h → t.hand s q ≡ held k → t.hand u p ≡ held i → t.hand u q ≡ held j → Room t (connect s u a b p q) → Refuses t (connect s u a b p q) (number_in result) }
{
    if x.live == 0 || z.live == 0 {
        return Err(Refusal::NoSubject);
    }
    if s == u {
        return Err(Refusal::SameSubject);
    }
    if is_object_used(y) || is_object_used(v) || a == b {
        return Err(Refusal::NumberTaken);
    }
    if OBJECT_NUMBERS <= a || OBJECT_NUMBERS <= b {
        return Err(Refusal::TooManyObjects);
    }
    if are_ends_used(p, q, h, k) || are_ends_used(p, q, i, j) || p == q {
        return Err(Refusal::PlaceUnfit);
    }
    Ok(())
}

// Calls 5 and 6; x stands at s, y at o, h at place p.
pub fn of_open(p: u64, x: Subject, y: Object, h: Handle) -> Result<(), Refusal>
    ensures { (t : Tables) (d : Dir) (s o : ℕ) → Wf t → t.at (subject s) ≡ subject_entry x → t.at (object o) ≡ object_entry y →
        t.hand s p ≡ held h → Refuses t (opens d s o p) (number_in result) }
{
    if x.live == 0 {
        return Err(Refusal::NoSubject);
    }
    if y.kind == FREE {
        return Err(Refusal::NoObject);
    }
    if is_place_used(p, h) {
        return Err(Refusal::PlaceUnfit);
    }
    Ok(())
}

// Call 14; x stands at s, y at o, h at place p.
pub fn of_map(p: u64, x: Subject, y: Object, h: Handle) -> Result<(), Refusal>
    ensures { (t : Tables) (s o : ℕ) → Wf t → t.at (subject s) ≡ subject_entry x → t.at (object o) ≡ object_entry y →
        t.hand s p ≡ held h → Refuses t (maps s o p) (number_in result) }
{
    if x.live == 0 {
        return Err(Refusal::NoSubject);
    }
    if y.kind == FREE {
        return Err(Refusal::NoObject);
    }
    if PIPE <= y.kind {
        return Err(Refusal::IsPipe);
    }
    if is_place_used(p, h) {
        return Err(Refusal::PlaceUnfit);
    }
    Ok(())
}

// Call 7; x stands at s, h at place p.
pub fn of_read(x: Subject, h: Handle) -> Result<(), Refusal>
    ensures { (t : Tables) (s p : ℕ) → Wf t → t.at (subject s) ≡ subject_entry x → t.hand s p ≡ held h →
        Refuses t (access reading s p) (number_in result) }
{
    if x.live == 0 {
        return Err(Refusal::NoSubject);
    }
    if h.way == EMPTY {
        return Err(Refusal::PlaceUnfit);
    }
    if looks::is_writing(h.way) {
        return Err(Refusal::WrongDirection);
    }
    Ok(())
}

// Call 8; x stands at s, h at place p.
pub fn of_write(x: Subject, h: Handle) -> Result<(), Refusal>
    ensures { (t : Tables) (s p : ℕ) → Wf t → t.at (subject s) ≡ subject_entry x → t.hand s p ≡ held h →
        Refuses t (access writing s p) (number_in result) }
{
    if x.live == 0 {
        return Err(Refusal::NoSubject);
    }
    if h.way == EMPTY {
        return Err(Refusal::PlaceUnfit);
    }
    if looks::is_reading(h.way) {
        return Err(Refusal::WrongDirection);
    }
    Ok(())
}

// Calls 9 and 18; x stands at s, z at c.
pub fn of_fork(c: u64, x: Subject, z: Subject) -> Result<(), Refusal>
    ensures { (t : Tables) (s : ℕ) → Wf t → t.at (subject s) ≡ subject_entry x → t.at (subject c) ≡ subject_entry z →
        Refuses t (fork s c) (number_in result) × Refuses t (thread s c) (number_in result) }
{
    if x.live == 0 {
        return Err(Refusal::NoSubject);
    }
    if is_subject_used(c, z) {
        return Err(Refusal::NumberTaken);
    }
    Ok(())
}

// Call 10; x stands at s, y at o.
pub fn of_exec(x: Subject, y: Object) -> Result<(), Refusal>
    ensures { (t : Tables) (s o : ℕ) → Wf t → t.at (subject s) ≡ subject_entry x → t.at (object o) ≡ object_entry y →
        Refuses t (exec s o) (number_in result) }
{
    if x.live == 0 {
        return Err(Refusal::NoSubject);
    }
    if y.kind == FREE {
        return Err(Refusal::NoObject);
    }
    if PIPE <= y.kind {
        return Err(Refusal::IsPipe);
    }
    Ok(())
}

// Calls 11 and 15; x stands at s, h at place p.
pub fn of_held(x: Subject, h: Handle) -> Result<(), Refusal>
    ensures { (t : Tables) (s p : ℕ) → Wf t → t.at (subject s) ≡ subject_entry x → t.hand s p ≡ held h →
        Refuses t (close s p) (number_in result) × Refuses t (mark s p) (number_in result) }
{
    if x.live == 0 {
        return Err(Refusal::NoSubject);
    }
    if h.way == EMPTY {
        return Err(Refusal::PlaceUnfit);
    }
    Ok(())
}

// Call 12; x stands at s.
pub fn of_exit(x: Subject) -> Result<(), Refusal>
    ensures { (t : Tables) (s : ℕ) → Wf t → t.at (subject s) ≡ subject_entry x → Refuses t (exit s) (number_in result) }
{
    if x.live == 0 {
        return Err(Refusal::NoSubject);
    }
    Ok(())
}

// Call 13; y stands at o.
pub fn of_retire(y: Object) -> Result<(), Refusal>
    ensures { (t : Tables) (o : ℕ) → Wf t → t.at (object o) ≡ object_entry y → Refuses t (retire o) (number_in result) }
{
    if y.kind == FREE {
        return Err(Refusal::NoObject);
    }
    if PIPE <= y.kind {
        return Err(Refusal::IsPipe);
    }
    Ok(())
}

// Call 16.
pub fn of_freeze(level: u64) -> Result<(), Refusal>
    ensures { (t : Tables) → Wf t → Refuses t (freeze level) (number_in result) }
{
    if (NO_FREEZE as u64) < level {
        return Err(Refusal::LevelTooHigh);
    }
    Ok(())
}

// RULES R15 of an open for reading, or for writing; y stands at o. A freeze of NO_FREEZE and above freezes nothing.
pub fn is_frozen(freeze: u8, reads: bool, y: Object) -> bool
    ensures { (t : Tables) (o : ℕ) → t.freeze ≡ freeze → t.at (object o) ≡ object_entry y →
        broken t (thawed (direction reads) o) ≡ result }
{
    !reads && freeze < NO_FREEZE && y.kind == FILE && freeze <= y.level
}

// The first of the late rows that refuses a call which no earlier row refuses, in the order of the rules.
pub fn last(short: bool, busy: bool, frozen: bool) -> Result<(), Refusal>
    ensures { (t : Tables) (c : Call) → Refuses t c 0 → Late t c short busy frozen → Refused t c (number_in result) }
{
    if frozen {
        return Err(Refusal::Frozen);
    }
    if short {
        return Err(Refusal::Flow);
    }
    if busy {
        return Err(Refusal::StillOpen);
    }
    Ok(())
}

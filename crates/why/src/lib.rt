// The chain behind a refusal 9: how what a thing of an insufficient label holds could get into a file that it must not reach, had the call been let through. The search
// itself is crate `ways`'s, on arrays by slot as the call would leave them; `why` finds the slots of what a call names, and tells objects by their numbers.
#![tactic(auto)]

ghost use Rattle.std.specs.Prelude.{◌≡◌, ◌≤◌};
ghost use Rattle.model.specs.Tables.{clean};
ghost use Rattle.model.specs.Calls.{connect, exec, decode};
ghost use Rattle.answers.specs.Telling.{told};
ghost use Rattle.gatekeeper.specs.View.{view, Honest, direct_of};
ghost use Rattle.why.specs.Why.{Explains, no_chain};
ghost use Rattle.why.specs.Working.{DueTells, seeking, number_at, told_by, nine_in};

use answers::{Answer, Refusal};
use calls::{Call, Numbers};
use gatekeeper::{Monitor, seats};
use tables::{MAPS, OBJECTS, READS, SUBJECTS, WRITES, looks};
use ways::Way;

// How many handles a chain has at most.
pub const STEPS: usize = 95;

// What `kind` says of the thing at the front: a subject, or an object. In no chain it is 0. (Numbers, and a count beside the places: C programs read this struct.)
pub const A_SUBJECT: u8 = 1;

pub const AN_OBJECT: u8 = 2;

// The thing at the front and its kind, the number of the file at the end, and the places of the first `count` handles: place p of subject s is 16 s + p.
#[repr(C)]
#[derive(Clone, Copy)]
pub struct Chain {
    pub low: u64,
    pub high: u64,
    pub steps: [u16; STEPS],
    pub count: u8,
    pub kind: u8,
}

// ---- by slot

// Behind an open, or a map, on tables m: the handle that it seeks, of this way, is at its place.
fn behind_open(m: Monitor, way: u8, s: u64, o: u64, p: u64) -> Way
    ensures { (way ≡ 0 → ⊥) → DueTells m.subjects m.groups m.objects m.handles (seeking way s o p) result }
{
    let next = looks::with_handle(m.handles, s, p, looks::joining(way, o));
    let leads = groups::leads(m.subjects, m.groups);
    ways::nearest(m.subjects, m.objects, next, leads)
}

// Behind an exec: what it sheds is gone, and the chain is from the program's label and the subject alone, with the program in front of it.
fn behind_exec(m: Monitor, s: u64, o: u64) -> Way
    ensures { DueTells m.subjects m.groups m.objects m.handles (exec s o) result }
{
    let rest = groups::alone(m.subjects, m.groups, m.handles, s);
    let next = rest.handles;
    let leads = groups::leads(rest.subjects, m.groups);
    let label = looks::object_label(looks::object_of(m.objects, o));
    let w = ways::nearest_from(m.objects, next, leads, s as usize, label);
    Way {
        start: SUBJECTS + (o % OBJECTS as u64) as usize,
        ..w
    }
}

// Behind a connect: the four ends of its two pipes are at their places. The pipes are new and hold nothing, so no chain starts at one.
fn behind_connect(m: Monitor, s: u64, u: u64, a: u64, b: u64, p: u64, q: u64) -> Way
    ensures { DueTells m.subjects m.groups m.objects m.handles (connect s u a b p q) result }
{
    let joined = handles::with_ends(m.handles, s, p, q, b, a);
    let next = handles::with_ends(joined, u, p, q, a, b);
    let leads = groups::leads(m.subjects, m.groups);
    ways::nearest(m.subjects, m.objects, next, leads)
}

// Behind this call, whose numbers of objects are slots. Only these calls are refused with 9.
fn behind(m: Monitor, call: Call) -> Way
    ensures { DueTells m.subjects m.groups m.objects m.handles (decode (direct_of call)) result }
{
    let Numbers { a, b, c, d, e, f } = call.numbers;
    match call.code {
        5 => behind_open(m, READS, a, b, c),
        6 => behind_open(m, WRITES, a, b, c),
        10 => behind_exec(m, a, b),
        14 => behind_open(m, MAPS, a, b, c),
        17 => behind_connect(m, a, b, c, d, e, f),
        _ => Way {
            start: 0,
            end: 0,
            steps: [0; STEPS],
            count: 0,
        },
    }
}

// ---- by number

// No chain.
fn none() -> Chain
    ensures { result ≡ no_chain }
{
    Chain {
        low: 0,
        high: 0,
        steps: [0; STEPS],
        count: 0,
        kind: 0,
    }
}

// The number of the object that is thing x: the slots come after the subjects.
fn number_of(numbers: [u64; OBJECTS], x: usize) -> u64
    ensures { result ≡ number_at numbers x }
{
    let slot = (x % OBJECTS + SUBJECTS) % OBJECTS;
    numbers[slot]
}

// The chain w with the numbers of the objects at its front and at its end; a count of 0 is no chain.
fn numbered(numbers: [u64; OBJECTS], w: Way) -> Chain
    ensures { result ≡ told_by numbers w }
{
    if w.count == 0 {
        return none();
    }
    let steps = w.steps;
    let high = number_of(numbers, w.end);
    let count = (w.count % (STEPS + 1)) as u8;
    if w.start < SUBJECTS {
        return Chain {
            low: steps[0] as u64 / 16,
            high,
            steps,
            count,
            kind: A_SUBJECT,
        };
    }
    Chain {
        low: number_of(numbers, w.start),
        high,
        steps,
        count,
        kind: AN_OBJECT,
    }
}

// An answer is a refusal 9.
fn is_nine(a: Answer) -> bool
    ensures { result ≡ nine_in (told a) }
{
    matches!(a, Err(Refusal::Flow))
}

// The chain behind this call, which is not made: one with the fewest handles where the call is refused with 9 on this monitor, in which no label is below its need and
// the members of a group have one; and no chain where it is not refused with 9.
pub fn why(m: Monitor, call: Call) -> Chain
    ensures few { result.count ≤ 95 }
    ensures explains { Honest m → Explains (clean (view m)) (decode (direct_of call)) result }
{
    let reply = m.call(call);
    if !is_nine(reply.answer) {
        return none();
    }
    let t = m.assured();
    let s = seats::located(t.objects, t.numbers, call);
    numbered(t.numbers, behind(t, s.call))
}

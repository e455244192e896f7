// A shortest chain of handles by which something live reaches a file that it must not reach: what is behind a refusal for it. Things are numbers below THINGS,
// a group being its lead, and the arc of a handle leads from where its flow starts to where it ends. Each thing gets its distance to such a file, and a walk
// down the distances is the chain.
#![tactic(auto)]

ghost use Rattle.std.specs.Prelude.{◌≡◌, true, false, cond, ◌%◌, ◌≤◌, ◌<◌, MatchOption};
ghost use Rattle.labels.specs.Codes.{coded};
ghost use Rattle.passes.specs.Listing.{start_at, end_at};
ghost use Rattle.ways.specs.Paths.{Stands, Is, Goal, Found};
ghost use Rattle.ways.specs.Near.{figure, NoneBelow, Neared, Ways, Sloped, First, Walked};
ghost use Rattle.ways.specs.Working.{Drawn, goal_by, Aimed, live_at, label_at, Alone, shorter_by};

use passes::Edge;
use tables::{
    FILE, FREE, HANDLES, Handle, OBJECTS, Object, PLACES, SUBJECTS, Subject, THINGS, looks,
};

// The most handles of a chain, which comes to each of the other things at most once.
pub const STEPS: usize = THINGS - 1;

// The distance of what reaches no goal. (A number above all others, so that distances compare as numbers: an Option would be taken apart at each comparison.)
const FAR: u8 = 255;

// The first `count` of the steps are the slots of the handles of a chain, which leads from thing `start` to thing `end`. A count of 0 says that there is none. (As
// in the promise `Found` and in the chain that C gets; and the core has no heap, so that the count stands beside an array.)
#[derive(Clone, Copy)]
pub struct Way {
    pub start: usize,
    pub end: usize,
    pub steps: [u16; STEPS],
    pub count: usize,
}

// The arcs of the handles. A subject counts as its lead, modulo SUBJECTS. An empty place leads from thing 0 to itself, which brings nothing nearer.
fn drawn(handles: [Handle; HANDLES], leads: [u8; SUBJECTS]) -> [Edge; HANDLES]
    ensures { Drawn leads handles result 512 }
{
    let mut arcs = [Edge { from: 0, to: 0 }; HANDLES];
    for (i, h) in handles.iter().enumerate() {
        arcs[i] = passes::flow(*h, leads[i / PLACES] % SUBJECTS as u8);
    }
    arcs
}

// The distance of an object to start from, for what has this label: 0 for a file whose label it is not at least.
fn goal(x: Object, label: u16) -> u8
    ensures { result ≡ goal_by x (coded label) }
{
    if x.kind == FILE && !labels::is_at_most(looks::object_label(x), label) {
        0
    } else {
        FAR
    }
}

// And of all things: no subject is a goal.
fn goals(objects: [Object; OBJECTS], label: u16) -> [u8; THINGS]
    ensures { Aimed objects (coded label) result 64 }
{
    let mut r = [FAR; THINGS];
    for (i, object) in objects.iter().enumerate() {
        r[SUBJECTS + i] = goal(*object, label);
    }
    r
}

// One pass over the arcs: the start of each is one step farther than its end, where that is nearer than it was. Whether a distance fell.
// (Out of line: within `distances` the compiler makes one loop of the passes and their arcs, which takes up to half as long again.)
#[inline(never)]
fn nearer(arcs: &[Edge; HANDLES], dist: &mut [u8; THINGS]) -> bool
    ensures { Neared (start_at arcs.now) (end_at arcs.now) dist.old dist.new 512 result }
{
    let mut fell = false;
    for e in arcs {
        let far = dist[e.from as usize];
        let near = dist[e.to as usize];
        if far != 0 && near < far - 1 {
            dist[e.from as usize] = near + 1;
            fell = true;
        }
    }
    fell
}

// Passes until nothing falls: how many arcs each thing is from a goal.
fn distances(arcs: &[Edge; HANDLES], goals: [u8; THINGS]) -> [u8; THINGS]
    ensures { Ways (start_at arcs.now) (end_at arcs.now) goals result }
{
    let mut dist = goals;
    while nearer(arcs, &mut dist) {}
    dist
}

// The lowest arc that leads nearer from thing a. From a goal none does, and none is looked for.
fn step(arcs: &[Edge; HANDLES], dist: &[u8; THINGS], a: usize) -> Option<usize>
    requires { a < 96 }
    ensures { MatchOption result (NoneBelow (start_at arcs.now) (end_at arcs.now) (figure dist.now) a 512) (First (start_at arcs.now) (end_at arcs.now) (figure dist.now) a) }
{
    let far = dist[a];
    if far == 0 {
        return None;
    }
    for (i, e) in arcs.iter().enumerate() {
        if e.from as usize == a && dist[e.to as usize] < far {
            return Some(i);
        }
    }
    None
}

// From thing x down the distances to a goal.
fn walk(arcs: &[Edge; HANDLES], dist: &[u8; THINGS], x: usize) -> Way
    requires sloped { Sloped (start_at arcs.now) (end_at arcs.now) (figure dist.now) }
    requires low { x < 96 }
    requires near { figure dist.now x ≤ 95 }
    ensures { Walked (start_at arcs.now) (end_at arcs.now) (figure dist.now) x result.start result.steps result.count result.end }
{
    let mut steps = [0u16; STEPS];
    let mut at = x;
    let mut count: usize = 0;
    while let Some(i) = step(arcs, dist, at) {
        steps[count] = i as u16;
        at = arcs[i].to as usize;
        count += 1;
    }
    Way {
        start: x,
        end: at,
        steps,
        count,
    }
}

fn no_way() -> Way
    ensures { result.count ≡ 0 }
{
    Way {
        start: 0,
        end: 0,
        steps: [0u16; STEPS],
        count: 0,
    }
}

// A shortest chain from thing x to a file whose label `label` is not at least. What is farther than STEPS counts as out of reach.
fn way_from(
    objects: [Object; OBJECTS],
    handles: [Handle; HANDLES],
    leads: [u8; SUBJECTS],
    x: usize,
    label: u16,
) -> Way
    requires low { x < 96 }
    requires off { Goal objects (coded label) x → ⊥ }
    ensures { Found (Is x (coded label)) objects leads handles result.start result.steps result.count result.end }
{
    let arcs = drawn(handles, leads);
    let dist = distances(&arcs, goals(objects, label));
    let far = dist[x] as usize;
    if STEPS < far {
        return no_way();
    }
    walk(&arcs, &dist, x)
}

// Behind an exec: a shortest chain from subject s, modulo SUBJECTS, for this label. (A file may be a goal itself, where a chain has no handle: a subject never is.)
pub fn nearest_from(
    objects: [Object; OBJECTS],
    handles: [Handle; HANDLES],
    leads: [u8; SUBJECTS],
    s: usize,
    label: u16,
) -> Way
    ensures { Found (Is (s % 32) (coded label)) objects leads handles result.start result.steps result.count result.end }
{
    way_from(objects, handles, leads, s % SUBJECTS, label)
}

// The label of thing x, as one number, where it is in use.
fn label_of(subjects: [Subject; SUBJECTS], objects: [Object; OBJECTS], x: usize) -> Option<u16>
    requires { x < 96 }
    ensures { MatchOption result (live_at subjects objects x ≡ false) (λ l. (live_at subjects objects x ≡ true) × (coded l ≡ label_at subjects objects x)) }
{
    if x < SUBJECTS {
        let s = subjects[x];
        if s.live == 0 {
            None
        } else {
            Some(looks::subject_label(s))
        }
    } else {
        let o = objects[x - SUBJECTS];
        if o.kind == FREE {
            None
        } else {
            Some(looks::object_label(o))
        }
    }
}

// A shortest chain from thing x, for its own label, where it is live.
fn way_of(
    subjects: [Subject; SUBJECTS],
    objects: [Object; OBJECTS],
    handles: [Handle; HANDLES],
    leads: [u8; SUBJECTS],
    x: usize,
) -> Way
    requires { x < 96 }
    ensures { Found (Alone x (Stands subjects objects)) objects leads handles result.start result.steps result.count result.end }
{
    match label_of(subjects, objects, x) {
        Some(label) => way_from(objects, handles, leads, x, label),
        None => no_way(),
    }
}

// The shorter of two ways, a where they are as long.
fn shorter(a: Way, b: Way) -> Way
    ensures { result ≡ cond (shorter_by b.count a.count) b a }
{
    if b.count != 0 && (a.count == 0 || b.count < a.count) {
        b
    } else {
        a
    }
}

// Behind an open, a map or a connect: a shortest chain from any live thing, for its own label; of those as short the one from the lowest thing.
pub fn nearest(
    subjects: [Subject; SUBJECTS],
    objects: [Object; OBJECTS],
    handles: [Handle; HANDLES],
    leads: [u8; SUBJECTS],
) -> Way
    ensures { Found (Stands subjects objects) objects leads handles result.start result.steps result.count result.end }
{
    let mut best = no_way();
    for x in 0..THINGS {
        best = shorter(best, way_of(subjects, objects, handles, leads, x));
    }
    best
}

// Needs that are kept: one figure for each subject and then one for each object. What stands there, one figure stored, and the figures
// after a handle came and after handles have gone. Where a quick test tells that no need changes, the figures are those that were; else they are worked
// out anew. What holds of the tables stands in front of each promise, and in no type: `Wf` is false of some monitors that calls take (crate `gatekeeper`).
#![tactic(auto)]

ghost use Rattle.std.specs.Prelude.{◌≡◌, true, not, ◌&&◌, cond, List, ℕ, ◌+◌, ◌%◌, ◌<◌, length, get_or, set, T};
ghost use Rattle.std.proofs.Math.Option.{none, some};
ghost use Rattle.model.specs.Flow.{subject, same};
ghost use Rattle.model.specs.Tables.{Tables, live, safe};
ghost use Rattle.model.specs.Steps.{hold, quits, apply};
ghost use Rattle.model.specs.Invariant.{Ends, Wf, Safe};
ghost use Rattle.model.specs.Figures.{Ready};
ghost use Rattle.model.proofs.Calls.Needs.{own_need};
ghost use Rattle.labels.specs.Codes.{coded};
ghost use Rattle.tables.specs.declared.Object.{Object};
ghost use Rattle.tables.specs.declared.Subject.{Subject};
ghost use Rattle.tables.specs.Records.{reads_by, joins, tables_of};
ghost use Rattle.tables.specs.Needs.{figure_of};
ghost use Rattle.tables.specs.Working.{writes_by};
ghost use Rattle.groups.specs.Groups.{kin_of};
ghost use Rattle.passes.specs.Working.{spare_by, backed_by, upheld_by, beside_of, falls_by, source_of, end_of};
ghost use Rattle.keeping.specs.Things.{place_of};

use labels::SETS;
use passes::Target;
use tables::{HANDLES, Handle, OBJECTS, Object, PLACES, SUBJECTS, Subject, THINGS, looks};

// A subject, or an object, by its number modulo how many there are.
#[derive(Clone, Copy, Debug, PartialEq, Eq)]
pub enum Thing {
    Subject(u64),
    Object(u64),
}

impl Thing {
    // Where its figure stands.
    pub fn place(self) -> usize
        ensures is { result ≡ place_of self }
        ensures low { result < 96 }
    {
        match self {
            Thing::Subject(s) => s as usize % SUBJECTS,
            Thing::Object(o) => SUBJECTS + o as usize % OBJECTS,
        }
    }
}

// The figure of thing x.
pub fn need(n: [u16; THINGS], x: Thing) -> u16
    ensures { result ≡ get_or n (place_of x) 0 }
{
    n[x.place()]
}

// The figures with v for thing x.
pub fn with_need(n: [u16; THINGS], x: Thing, v: u16) -> [u16; THINGS]
    ensures { result ≡ set n (place_of x) v }
{
    let mut r = n;
    r[x.place()] = v;
    r
}

// ---- a handle comes

// The figure of a handle's flow falls from its source to its target: `mine` is that of the subject, `its` that of the object.
pub fn falls(reads: bool, mine: u16, its: u16) -> bool
    ensures { result ≡ falls_by reads (coded mine) (coded its) }
{
    if reads {
        labels::is_at_most(mine, its)
    } else {
        labels::is_at_most(its, mine)
    }
}

// The figures are known to be right, and the flow of handle h of subject s falls by them.
fn is_quiet(sure: bool, n: [u16; THINGS], s: u64, h: Handle) -> bool
    ensures { result ≡ (sure && falls_by (reads_by h.way) (coded (get_or n (s % 32) 0)) (coded (get_or n (32 + h.object % 64) 0))) }
{
    sure && falls(
        looks::is_reading(h.way),
        need(n, Thing::Subject(s)),
        need(n, Thing::Object(h.object as u64)),
    )
}

// Figures, and whether some live thing's label is below its own. (Two answers, and no Option: what `opened` promises of the figures holds of short ones, too.)
#[derive(Clone, Copy)]
pub struct Opening {
    pub needs: [u16; THINGS],
    pub short: bool,
}

// The figures once subject s has opened handle h, which is among the handles: n where it is sure that they were right, and no label below them, and where
// the flow falls by them. What falls by the needs raises none, so that no label is below one, either.
pub fn opened(
    sure: bool,
    n: [u16; THINGS],
    subjects: [Subject; SUBJECTS],
    groups: [u8; SUBJECTS],
    objects: [Object; OBJECTS],
    handles: [Handle; HANDLES],
    s: u64,
    h: Handle,
) -> Opening
    ensures { (rest : Tables) (t : Tables) (p : ℕ) → rest.kin ≡ kin_of subjects groups → Wf t → Ends t s p (joins h) → t.hand s p ≡ none →
        tables_of rest subjects objects handles ≡ apply (hold s p (some (joins h))) t → (sure ≡ true → Ready t (figure_of n)) →
        Ready (tables_of rest subjects objects handles) (figure_of result.needs)
        × ((sure ≡ true → Safe t) → result.short ≡ not (safe (tables_of rest subjects objects handles))) }
{
    if is_quiet(sure, n, s, h) {
        return Opening {
            needs: n,
            short: false,
        };
    }
    let needs = flows::figures(subjects, groups, objects, handles);
    let short = flows::is_short(subjects, objects, needs);
    Opening { needs, short }
}

// ---- handles go

// The flow from a thing that needs `source` to one that needs `end` goes, and the source needs `own` without it: no need changes. Of the end's need, the set
// is in that of `own`, and the level is at most its level or below the source's. (Where the two levels differ, the source has its own from elsewhere. A mark
// that both have may have come through the flow.)
pub fn is_spare(end: u16, source: u16, own: u16) -> bool
    ensures { result ≡ spare_by (coded end) (coded source) (coded own) }
{
    let set = end % SETS;
    let had = own % SETS;
    let common = set & had;
    let within = common == set;
    let level = end / SETS;
    let lower = level < source / SETS;
    let held = level <= own / SETS;
    within && (lower || held)
}

// What the source of the flow of handle h, which is on object y, demands by itself: a file that is read its label; a subject nothing.
pub fn backing(h: Handle, y: Object) -> u16
    ensures { coded result ≡ backed_by h y }
{
    if looks::is_reading(h.way) {
        flows::demanded(y)
    } else {
        0
    }
}

// What object y, on which handle h is, demands of the handle's subject: where h writes and y is a file, its label.
fn upheld(h: Handle, y: Object) -> u16
    ensures { coded result ≡ upheld_by h y }
{
    if looks::is_writing(h.way) {
        flows::demanded(y)
    } else {
        0
    }
}

// All that the files demand which subject s writes by these handles.
fn beside(objects: [Object; OBJECTS], handles: [Handle; HANDLES], s: usize) -> u16
    requires { s < 32 }
    ensures { coded result ≡ beside_of objects handles s 16 }
{
    let base = s * PLACES;
    let mut all = 0;
    for h in &handles[base..base + PLACES] {
        let y = objects[h.object as usize % OBJECTS];
        all = labels::joined(all, upheld(*h, y));
    }
    all
}

// The thing at which the flow of handle h of subject s starts.
fn source(h: Handle, s: u64) -> usize
    ensures { result ≡ source_of h s }
{
    if looks::is_reading(h.way) {
        SUBJECTS + h.object as usize % OBJECTS
    } else {
        s as usize % SUBJECTS
    }
}

// The figures once subject s has closed handle h, whose flow led to what needed this much: worked out anew from the handles that are left, until they say
// that the flow's source still needs as much. Then no need changes. The first pass goes from the last handle to the first, since in a pipeline that was made from left to right needs travel that way.
fn sunk(
    n: [u16; THINGS],
    subjects: [Subject; SUBJECTS],
    groups: [u8; SUBJECTS],
    objects: [Object; OBJECTS],
    handles: [Handle; HANDLES],
    s: u64,
    h: Handle,
    need: u16,
) -> [u16; THINGS]
    ensures { (rest : Tables) (t : Tables) (p : ℕ) → rest.kin ≡ kin_of subjects groups → Wf t → t.hand s p ≡ some (joins h) →
        tables_of rest subjects objects handles ≡ apply (hold s p none) t → Ready t (figure_of n) → need ≡ get_or n (end_of h s) 0 →
        Ready (tables_of rest subjects objects handles) (figure_of result) }
{
    let leads = groups::leads(subjects, groups);
    let at = source(h, groups::of(leads, s) as u64);
    let edges = passes::listed(handles, leads);
    let mut needs = flows::starts(objects);
    passes::pass_back(&edges, &mut needs);
    if labels::is_at_most(need, needs[at]) {
        return n;
    }
    if passes::worked(&edges, &mut needs, Some(Target { at, enough: need })) {
        return flows::spread(needs, leads);
    }
    n
}

// (For `inplace`, which calls it.) a where `yes`, else b: of the needs of a subject and an object, that at one end of their flow.
pub fn chosen(yes: bool, a: u16, b: u16) -> u16
    ensures { result ≡ cond yes a b }
{
    if yes {
        return a;
    }
    b
}

// The figures once subject s has closed handle h, of the handles that are left: n where the flow was spare by what h's object demands by itself, or by what the
// other files demand that s writes. (Never where another thing, and no file, needs as much: in a ring of pipes each would hold up the other.)
pub fn closed(
    n: [u16; THINGS],
    subjects: [Subject; SUBJECTS],
    groups: [u8; SUBJECTS],
    objects: [Object; OBJECTS],
    handles: [Handle; HANDLES],
    s: u64,
    h: Handle,
) -> [u16; THINGS]
    ensures { (rest : Tables) (t : Tables) (p : ℕ) → rest.kin ≡ kin_of subjects groups → Wf t → t.hand s p ≡ some (joins h) →
        tables_of rest subjects objects handles ≡ apply (hold s p none) t → Ready t (figure_of n) → Ready (tables_of rest subjects objects handles) (figure_of result) }
{
    let number = h.object as u64;
    let mine = need(n, Thing::Subject(s));
    let its = need(n, Thing::Object(number));
    let reads = looks::is_reading(h.way);
    let (source, end) = if reads { (its, mine) } else { (mine, its) };
    let y = looks::object_of(objects, number);
    let own = backing(h, y);
    if is_spare(end, source, own) {
        return n;
    }
    if !reads {
        let all = beside(objects, handles, s as usize % SUBJECTS);
        if is_spare(end, source, all) {
            return n;
        }
    }
    sunk(n, subjects, groups, objects, handles, s, h, end)
}

// The figures once subject s is gone, of the subjects and the handles that are left: n where it needed nothing.
pub fn vacated(
    n: [u16; THINGS],
    subjects: [Subject; SUBJECTS],
    groups: [u8; SUBJECTS],
    objects: [Object; OBJECTS],
    handles: [Handle; HANDLES],
    s: u64,
) -> [u16; THINGS]
    ensures { (rest : Tables) (t : Tables) → rest.kin ≡ kin_of subjects groups → Wf t → T (live t (subject s)) →
        tables_of rest subjects objects handles ≡ apply (quits (same (subject s))) t → Ready t (figure_of n) →
        Ready (tables_of rest subjects objects handles) (figure_of result) }
{
    if need(n, Thing::Subject(s)) == 0 {
        return n;
    }
    flows::figures(subjects, groups, objects, handles)
}

// ---- a child's own

// What a handle of a subject makes it need by itself: what the object that it writes needs, nothing where it does not write.
fn written(n: [u16; THINGS], h: Handle) -> u16
    ensures { result ≡ cond (writes_by h.way) (get_or n (32 + h.object % 64) 0) 0 }
{
    if looks::is_writing(h.way) {
        need(n, Thing::Object(h.object as u64))
    } else {
        0
    }
}

// All that the objects need which subject s, modulo SUBJECTS, writes: what it needs by its own handles, without those of its mates.
pub fn own(n: [u16; THINGS], handles: [Handle; HANDLES], s: u64) -> u16
    ensures { (rest : Tables) (ss : List Subject) (os : List Object) → length os ≡ 64 → s < 32 → Wf (tables_of rest ss os handles) →
        Ready (tables_of rest ss os handles) (figure_of n) → coded result ≡ own_need (tables_of rest ss os handles) s }
{
    let base = s as usize % SUBJECTS * PLACES;
    let mut all = 0;
    for h in &handles[base..base + PLACES] {
        all = labels::joined(all, written(n, *h));
    }
    all
}

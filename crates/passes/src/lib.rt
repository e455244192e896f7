// Flows as a list of edges between things, and figures, each a label, that are raised along them in passes over the list until they fall along every one:
// from any figures, the least ones that do. A thing is a number below 96.
#![tactic(auto)]

mod edge;

ghost use Rattle.std.specs.Prelude.{◌≡◌, true, false, ◌<◌, length, IfSome, IsSomeAnd};
ghost use Rattle.model.specs.Label.{◌⊑◌};
ghost use Rattle.labels.specs.Codes.{coded};
ghost use Rattle.passes.specs.Least.{figure, Settled, Between, Passed, Before};
ghost use Rattle.passes.specs.Listing.{start_at, end_at, Listed};
ghost use Rattle.passes.specs.Working.{end_by, Taken};

use arrayvec::ArrayVec;
pub use edge::Edge;
use tables::{EMPTY, HANDLES, Handle, OBJECTS, PLACES, SUBJECTS, THINGS, looks};

// The flow of handle h, where `lead` is the lead of its subject; thing 0 to itself for an empty place.
pub fn flow(h: Handle, lead: u8) -> Edge
    requires { lead < 32 }
    ensures start { result.from ≡ end_by h lead true }
    ensures end { result.to ≡ end_by h lead false }
{
    if h.way == EMPTY {
        return Edge::default();
    }
    let object = (SUBJECTS + h.object as usize % OBJECTS) as u8;
    if looks::is_reading(h.way) {
        Edge {
            from: object,
            to: lead,
        }
    } else {
        Edge {
            from: lead,
            to: object,
        }
    }
}

// The flows of the handles, in the order of their places. A subject counts as its lead, modulo SUBJECTS, so that a group is one thing. (Both ends are worked
// out once here, and not in each pass.)
pub fn listed(handles: [Handle; HANDLES], leads: [u8; SUBJECTS]) -> ArrayVec<Edge, HANDLES>
    ensures { Listed leads handles result.items 512 }
{
    let mut edges = ArrayVec::new();
    for (i, h) in handles.iter().enumerate() {
        if h.way != EMPTY {
            edges.push(flow(*h, leads[i / PLACES] % SUBJECTS as u8));
        }
    }
    edges
}

// The source of the edge takes its target's figure in, where it has not got it: whether it grew.
fn taken(e: Edge, figures: &mut [u16; THINGS]) -> bool
    ensures { Taken e.from e.to figures.old figures.new result }
{
    let had = figures[e.from as usize];
    let takes = figures[e.to as usize];
    if labels::is_at_most(takes, had) {
        return false;
    }
    figures[e.from as usize] = labels::joined(had, takes);
    true
}

// One pass over the list, from the first edge to the last: whether a figure grew.
fn pass(edges: &[Edge], figures: &mut [u16; THINGS]) -> bool
    ensures { Passed (length edges.now) (start_at edges.now) (end_at edges.now) figures.old figures.new (Before (length edges.now)) result }
{
    let mut grew = false;
    for e in edges {
        if taken(*e, figures) {
            grew = true;
        }
    }
    grew
}

// And one from the last to the first.
pub fn pass_back(edges: &[Edge], figures: &mut [u16; THINGS]) -> bool
    ensures { Passed (length edges.now) (start_at edges.now) (end_at edges.now) figures.old figures.new (Before (length edges.now)) result }
{
    let mut moved = false;
    let mut left = edges;
    while let Some((e, before)) = left.split_last() {
        if taken(*e, figures) {
            moved = true;
        }
        left = before;
    }
    moved
}

// What ends passes: that the figure of thing `at` is at least `enough`.
#[derive(Clone, Copy)]
pub struct Target {
    pub at: usize,
    pub enough: u16,
}

// Passes by turns, until one of them finds nothing to raise: a chain along the order of the places or against it takes one. Where there is a target, they end
// as soon as it is met, too. Whether the figures fall along every flow.
pub fn worked(edges: &[Edge], figures: &mut [u16; THINGS], target: Option<Target>) -> bool
    requires { IfSome target (λ t. t.at < 96) }
    ensures between { Between (length edges.now) (start_at edges.now) (end_at edges.now) figures.old figures.new }
    ensures still { result ≡ true → Settled (start_at edges.now) (end_at edges.now) (figure figures.new) (Before (length edges.now)) }
    ensures stopped { result ≡ false → IsSomeAnd target (λ t. coded t.enough ⊑ figure figures.new t.at) }
{
    loop {
        if !pass(edges, figures) {
            return true;
        }
        if let Some(t) = &target {
            if labels::is_at_most(t.enough, figures[t.at]) {
                return false;
            }
        }
        if !pass_back(edges, figures) {
            return true;
        }
    }
}

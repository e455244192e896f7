// Needs, from whole arrays: what each thing demands, the need of each, and whether some label is below one. Passes over
// the flows are in the crate `passes`, needs that are kept in `keeping`.
#![tactic(auto)]

ghost use Rattle.std.specs.Prelude.{◌≡◌, Bool, not, List};
ghost use Rattle.model.specs.Label.{Label};
ghost use Rattle.model.specs.Tables.{Tables, safe};
ghost use Rattle.model.specs.Invariant.{Wf};
ghost use Rattle.tables.specs.declared.Subject.{Subject};
ghost use Rattle.tables.specs.declared.Handle.{Handle};
ghost use Rattle.tables.specs.Records.{tables_of};
ghost use Rattle.model.specs.Figures.{Ready};
ghost use Rattle.tables.specs.Needs.{figure_of, Needed};
ghost use Rattle.groups.specs.Groups.{kin_of};
ghost use Rattle.labels.specs.Codes.{coded};
ghost use Rattle.passes.specs.Working.{demanded_by, Started, Spread, short_subject, short_object};
ghost use Rattle.flows.specs.Short.{SomeOf};

use tables::{FILE, FREE, HANDLES, Handle, OBJECTS, Object, SUBJECTS, Subject, THINGS, looks};

// A file's label; nothing else demands anything.
pub fn demanded(x: Object) -> u16
    ensures { coded result ≡ demanded_by x }
{
    if x.kind == FILE {
        return looks::object_label(x);
    }
    0
}

// What each thing demands of all that reach it.
pub fn starts(objects: [Object; OBJECTS]) -> [u16; THINGS]
    ensures { Started objects result 64 }
{
    let mut r = [0u16; THINGS];
    for (i, object) in objects.iter().enumerate() {
        r[SUBJECTS + i] = demanded(*object);
    }
    r
}

// The figures with that of its lead, modulo SUBJECTS, for each subject.
pub fn spread(n: [u16; THINGS], leads: [u8; SUBJECTS]) -> [u16; THINGS]
    ensures { Spread leads n result }
{
    let mut r = n;
    for (s, lead) in leads.iter().enumerate() {
        r[s] = n[*lead as usize % SUBJECTS];
    }
    r
}

// The need of each thing, in tables in which nothing dangles. A group is one thing for the passes, and all its members have its need.
pub fn figures(
    subjects: [Subject; SUBJECTS],
    groups: [u8; SUBJECTS],
    objects: [Object; OBJECTS],
    handles: [Handle; HANDLES],
) -> [u16; THINGS]
    ensures { (rest : Tables) → rest.kin ≡ kin_of subjects groups → Wf (tables_of rest subjects objects handles) →
        Needed (tables_of rest subjects objects handles) result }
{
    let leads = groups::leads(subjects, groups);
    let edges = passes::listed(handles, leads);
    let mut needs = starts(objects);
    passes::worked(&edges, &mut needs, None);
    spread(needs, leads)
}

// What may be in use, and has a label: a subject, or an object.
trait Labelled: Copy {
    ghost short: { Self → Label → Bool };

    // It is in use, and its label is not at least v.
    fn is_short(self, v: u16) -> bool
        ensures { result ≡ short self (coded v) };
}

impl Labelled for Subject {
    ghost short = { short_subject };

    fn is_short(self, v: u16) -> bool {
        self.live != 0 && !labels::is_at_most(v, looks::subject_label(self))
    }
}

impl Labelled for Object {
    ghost short = { short_object };

    fn is_short(self, v: u16) -> bool {
        self.kind != FREE && !labels::is_at_most(v, looks::object_label(self))
    }
}

// Some of these has a label below its figure. (All are looked at: without a way out the compiler takes many at a time.)
fn some_short<T: Labelled>(things: &[T], n: &[u16]) -> bool
    ensures { SomeOf T.short things.now n.now result }
{
    things
        .iter()
        .zip(n)
        .fold(false, |some, (x, v)| some | x.is_short(*v))
}

// Some live thing's label is below its need, of which n is the figure, in tables in which nothing dangles.
pub fn is_short(subjects: [Subject; SUBJECTS], objects: [Object; OBJECTS], n: [u16; THINGS]) -> bool
    ensures { (rest : Tables) (hs : List Handle) → Wf (tables_of rest subjects objects hs) → Ready (tables_of rest subjects objects hs) (figure_of n) →
        result ≡ not (safe (tables_of rest subjects objects hs)) }
{
    some_short(&subjects, &n) || some_short(&objects, &n[SUBJECTS..])
}

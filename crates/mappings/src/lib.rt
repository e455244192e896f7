// Mappings on one file: who has it mapped, what these subjects become when it is written to, and whether a label fell by that.
#![tactic(auto)]

ghost use Rattle.std.specs.Prelude.{◌≡◌, false, ◌&&◌, List, ℕ, ◌/◌, ◌%◌, ◌<◌, get_or, eqb};
ghost use Rattle.std.proofs.Math.Option.{some};
ghost use Rattle.model.specs.Label.{label};
ghost use Rattle.model.specs.Flow.{subject, object};
ghost use Rattle.model.specs.Tables.{Entry, Tables, with_at};
ghost use Rattle.model.specs.Steps.{sink, applies};
ghost use Rattle.model.specs.Calls.{rereads, lowers};
ghost use Rattle.tables.specs.declared.Object.{Object};
ghost use Rattle.tables.specs.declared.Handle.{Handle};
ghost use Rattle.tables.specs.Records.{no_object, no_handle, tables_of};
ghost use Rattle.handles.specs.Working.{Hits};
ghost use Rattle.groups.specs.Groups.{stands, kin_of};
ghost use Rattle.mappings.specs.Working.{maps_on, sank_by};

use labels::Label;
use std::array;
use tables::{FILE, HANDLES, Handle, MAPS, Object, PLACES, SUBJECTS, Subject, looks};

// Of each subject, whether it is the lead, modulo SUBJECTS, of one that has object o mapped.
fn readers(handles: [Handle; HANDLES], leads: [u8; SUBJECTS], o: u8) -> [bool; SUBJECTS]
    ensures { Hits (λ j s. maps_on (get_or handles j no_handle) o && eqb (get_or leads (j / 16) 0 % 32) s) 32 result 512 }
{
    let mut r = [false; SUBJECTS];
    for (i, h) in handles.iter().enumerate() {
        if h.way == MAPS && h.object == o {
            let lead = leads[i / PLACES] as usize;
            r[lead % SUBJECTS] = true;
        }
    }
    r
}

// Of each subject, whether its lead, modulo SUBJECTS, is one of these.
fn led(reads: [bool; SUBJECTS], leads: [u8; SUBJECTS]) -> [bool; SUBJECTS]
    ensures { (a : ℕ) → a < 32 → get_or result a false ≡ get_or reads (get_or leads a 0 % 32) false }
{
    array::from_fn(|a| reads[leads[a] as usize % SUBJECTS])
}

// The subjects after a write to object o, whose record is y: where it is a file, each that has it mapped has read it, and with it its group.
pub fn reread(
    subjects: [Subject; SUBJECTS],
    groups: [u8; SUBJECTS],
    handles: [Handle; HANDLES],
    y: Object,
    o: u8,
) -> [Subject; SUBJECTS]
    ensures tables { (rest : Tables) (os : List Object) → rest.kin ≡ kin_of subjects groups → get_or os o no_object ≡ y →
        tables_of rest result os handles ≡ applies (rereads (tables_of rest subjects os handles) (object o)) (tables_of rest subjects os handles) }
    ensures live { (a : ℕ) → stands result a ≡ stands subjects a }
{
    if y.kind != FILE {
        return subjects;
    }
    let leads = groups::leads(subjects, groups);
    let reads = readers(handles, leads, o);
    groups::lowered(subjects, led(reads, leads), y.label())
}

// A subject that is live before and after, and whose label has become smaller: its level, or a shop mark alone.
fn sank(x: Subject, y: Subject) -> bool
    ensures { result ≡ sank_by x y }
{
    x.live != 0
        && y.live != 0
        && !labels::is_at_most(looks::subject_label(x), looks::subject_label(y))
}

// Some subject has a smaller label after.
pub fn is_lower(before: [Subject; SUBJECTS], after: [Subject; SUBJECTS]) -> bool
    ensures { (rest : Tables) (os : List Object) (hs : List Handle) →
        lowers (tables_of rest before os hs) (tables_of rest after os hs) ≡ result }
{
    before.iter().zip(&after).any(|(x, y)| sank(*x, *y))
}

// ---- what one takes in, its mates do

// The subjects once one of them has taken something in, and whether some label is smaller by that. (Two answers, and no Option: the subjects are read either way.)
#[derive(Clone, Copy)]
pub struct Taking {
    pub subjects: [Subject; SUBJECTS],
    pub lower: bool,
}

// Subject s, modulo SUBJECTS, takes in something of this label, and its mates with it.
pub fn taken(subjects: [Subject; SUBJECTS], groups: [u8; SUBJECTS], s: u64, by: Label) -> Taking
    ensures tables { (rest : Tables) (os : List Object) (hs : List Handle) (d : Entry) → s < 32 → rest.kin ≡ kin_of subjects groups → d.label ≡ label by.level by.shops →
        tables_of rest result.subjects os hs ≡ with_at (tables_of rest subjects os hs) (sink (tables_of rest subjects os hs) (subject s) (some d)) }
    ensures lower { (rest : Tables) (os : List Object) (hs : List Handle) →
        lowers (tables_of rest subjects os hs) (tables_of rest result.subjects os hs) ≡ result.lower }
    ensures live { (a : ℕ) → stands result.subjects a ≡ stands subjects a }
{
    let members = groups::members(subjects, groups, s);
    let after = groups::lowered(subjects, members, by);
    Taking {
        subjects: after,
        lower: is_lower(subjects, after),
    }
}

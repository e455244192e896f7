// Groups of subjects: a byte beside each subject, and two live subjects are in one group where their bytes are equal. Who is in a group, the lowest number in
// it, a byte that no group has, and what its members become when one of them takes something in or runs a program.
// The subjects and the bytes beside them stay two arrays: so they stand in the monitor's C struct, and most calls change one of the two.
#![tactic(auto)]

ghost use Rattle.std.specs.Prelude.{◌≡◌, false, not, ◌&&◌, ◌||◌, cond, List, ℕ, ◌%◌, ◌<◌, get_or, set, eqb};
ghost use Rattle.std.proofs.Math.Option.{none};
ghost use Rattle.model.specs.Tables.{Tables, with_kin};
ghost use Rattle.model.specs.Steps.{applies};
ghost use Rattle.model.specs.Calls.{sheds};
ghost use Rattle.tables.specs.declared.Subject.{Subject};
ghost use Rattle.tables.specs.declared.Object.{Object};
ghost use Rattle.tables.specs.Records.{no_subject, no_handle, hands, tables_of};
ghost use Rattle.handles.specs.Handing.{Handed};
ghost use Rattle.handles.specs.Working.{Hits};
ghost use Rattle.groups.specs.Groups.{stands, kin_of, mate_of, Leads, Fresh, taken_by, ousted_by};

use labels::Label;
use std::array;
use tables::{HANDLES, Handle, PLACES, SUBJECTS, Subject, looks};

// How many bytes there are.
pub const BYTES: usize = 256;

// ---- the byte of a group

// The byte beside subject s, modulo how many there are, and the bytes with another there.
pub fn of(groups: [u8; SUBJECTS], s: u64) -> u8
    ensures { result ≡ get_or groups (s % 32) 0 }
{
    groups[s as usize % SUBJECTS]
}

pub fn with(groups: [u8; SUBJECTS], s: u64, g: u8) -> [u8; SUBJECTS]
    ensures { result ≡ set groups (s % 32) g }
{
    looks::with(groups, s, g)
}

// ---- who is in a group

// Subjects a and b, whose records are x and y and whose bytes are g and h, are in one group.
// (Two records and two bytes, not the arrays: read from the arrays in here, `members` took 62 ns for 17, since the compiler no longer takes many at a time.)
fn is_kin(a: usize, b: usize, x: Subject, y: Subject, g: u8, h: u8) -> bool
    ensures { result ≡ (eqb a b || (not (eqb x.live 0) && (not (eqb y.live 0) && eqb g h))) }
{
    a == b || (x.live != 0 && y.live != 0 && g == h)
}

// Of each subject, whether it is in the group of s.
pub fn members(subjects: [Subject; SUBJECTS], groups: [u8; SUBJECTS], s: u64) -> [bool; SUBJECTS]
    ensures { (a : ℕ) → a < 32 → get_or result a false ≡ kin_of subjects groups (s % 32) a }
{
    let i = s as usize % SUBJECTS;
    let x = subjects[i];
    let g = groups[i];
    array::from_fn(|a| is_kin(i, a, x, subjects[a], g, groups[a]))
}

// And whether it is a mate of s: in the group, and not s.
pub fn mates(subjects: [Subject; SUBJECTS], groups: [u8; SUBJECTS], s: u64) -> [bool; SUBJECTS]
    ensures { (a : ℕ) → a < 32 → get_or result a false ≡ mate_of subjects groups (s % 32) a }
{
    let i = s as usize % SUBJECTS;
    let mut r = members(subjects, groups, s);
    r[i] = false;
    r
}

// The lowest number in the group of each subject; of one that is not live, its own.
pub fn leads(subjects: [Subject; SUBJECTS], groups: [u8; SUBJECTS]) -> [u8; SUBJECTS]
    ensures { Leads (kin_of subjects groups) result }
{
    // of each byte, the first live subject that has it
    let mut first: [Option<u8>; BYTES] = [None; BYTES];
    let mut r = [0; SUBJECTS];
    for (s, x) in subjects.iter().enumerate() {
        let mut lead = s as u8;
        if x.live != 0 {
            let g = groups[s] as usize;
            lead = first[g].unwrap_or(lead);
            first[g] = Some(lead);
        }
        r[s] = lead;
    }
    r
}

// ---- a group of its own

// Of each byte, whether a live subject has it.
fn taken(subjects: [Subject; SUBJECTS], groups: [u8; SUBJECTS]) -> [bool; BYTES]
    ensures { Hits (λ j v. stands subjects j && eqb (get_or groups j 0) v) 256 result 32 }
{
    let mut r = [false; BYTES];
    for (s, x) in subjects.iter().enumerate() {
        if x.live != 0 {
            r[groups[s] as usize] = true;
        }
    }
    r
}

// A byte that no live subject has: the lowest. (Thirty-two subjects cannot have thirty-three.)
pub fn fresh(subjects: [Subject; SUBJECTS], groups: [u8; SUBJECTS]) -> u8
    ensures { Fresh subjects groups result }
{
    let used = taken(subjects, groups);
    let lowest = used[..SUBJECTS].iter().position(|u| !*u);
    lowest.unwrap_or(SUBJECTS) as u8
}

// ---- what members become

// The subjects once these have taken in something of this label.
pub fn lowered(
    subjects: [Subject; SUBJECTS],
    takes: [bool; SUBJECTS],
    label: Label,
) -> [Subject; SUBJECTS]
    ensures { (a : ℕ) → a < 32 → get_or result a no_subject ≡ taken_by (get_or subjects a no_subject) (get_or takes a false) label.level label.shops }
{
    array::from_fn(|a| {
        if takes[a] {
            looks::fallen(subjects[a], label)
        } else {
            subjects[a]
        }
    })
}

// The subjects without these.
pub fn ousted(subjects: [Subject; SUBJECTS], gone: [bool; SUBJECTS]) -> [Subject; SUBJECTS]
    ensures { (a : ℕ) → a < 32 → get_or result a no_subject ≡ ousted_by (get_or subjects a no_subject) (get_or gone a false) }
{
    array::from_fn(|a| {
        if gone[a] {
            Subject::default()
        } else {
            subjects[a]
        }
    })
}

// A handle record, or an empty one.
fn unless_closed(h: Handle, goes: bool) -> Handle
    ensures { result ≡ cond goes no_handle h }
{
    if goes { Handle::default() } else { h }
}

// The handles without those of these subjects.
pub fn closed(handles: [Handle; HANDLES], gone: [bool; SUBJECTS]) -> [Handle; HANDLES]
    ensures { Handed handles result (λ s p. cond (get_or gone s false) none (hands handles s p)) }
{
    array::from_fn(|i| unless_closed(handles[i], gone[i / PLACES]))
}

// ---- a program is run

// The subjects and the handles that are left.
#[derive(Clone, Copy)]
pub struct Remains {
    pub subjects: [Subject; SUBJECTS],
    pub handles: [Handle; HANDLES],
}

// Those that are left once subject s, modulo SUBJECTS, has dropped all that an exec drops: its mates are gone, and its places with a marked handle or a mapping are
// empty.
pub fn alone(
    subjects: [Subject; SUBJECTS],
    groups: [u8; SUBJECTS],
    handles: [Handle; HANDLES],
    s: u64,
) -> Remains
    ensures tables { (rest : Tables) (os : List Object) → s < 32 → rest.kin ≡ kin_of subjects groups →
        tables_of (with_kin rest (kin_of result.subjects groups)) result.subjects os result.handles
        ≡ applies (sheds (tables_of rest subjects os handles) s) (tables_of rest subjects os handles) }
    ensures own { get_or result.subjects (s % 32) no_subject ≡ get_or subjects (s % 32) no_subject }
{
    let gone = mates(subjects, groups, s);
    Remains {
        subjects: ousted(subjects, gone),
        handles: handles::shed(closed(handles, gone), s),
    }
}

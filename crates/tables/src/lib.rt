// The records that the tables are made of, by bytes, and what is worked out from whole arrays of them and from the few records that
// a call looks at.
//
// Every byte is a value: no record is malformed. Promises go through `tables_of`, which reads the three arrays as the tables of the
// rules (crate `model`).
#![tactic(auto)]

ghost use Rattle.std.specs.Prelude.{◌≡◌};

use labels::Label;

pub mod looks;
pub mod slots;

// How many there are of each. Place p of subject s is handle PLACES * s + p.
pub const SUBJECTS: usize = 32;

pub const OBJECTS: usize = 64;

pub const PLACES: usize = 16;

pub const HANDLES: usize = SUBJECTS * PLACES;
// Subjects and objects together, as the nodes of the flows: a subject by its number, an object by its slot and SUBJECTS more.
pub const THINGS: usize = SUBJECTS + OBJECTS;

pub const HIGHEST: u64 = 15;
// The freeze where no file is frozen; any byte above it says so, too.
pub const NO_FREEZE: u8 = 16;
// OBJECTS, for a slot as a number of 64 bits.
pub const OBJECT_NUMBERS: u64 = 64;

// The kinds of an object; any other byte is a pipe, too. (Numbers, and no enums, here and below: C programs hold these records, and every byte in them is a value.)
pub const FREE: u8 = 0;

pub const FILE: u8 = 1;

pub const PIPE: u8 = 2;

// The ways of a handle; any other byte writes, too.
pub const EMPTY: u8 = 0;

pub const READS: u8 = 1;

pub const WRITES: u8 = 2;
// A mapping: it reads.
pub const MAPS: u8 = 3;

// `live` is 0 for a number that is not in use, `mark` is 0 for a handle that is not marked. A label is `level` and `shops`, the set of its shop marks, one bit for each
// of eight shop groups. A handle's `object` is the slot of its object, whose number stands
// beside the slot.
#[repr(C)]
#[derive(Clone, Copy, Default, Debug, PartialEq, Eq)]
pub struct Subject {
    pub live: u8,
    pub level: u8,
    pub shops: u8,
}

#[repr(C)]
#[derive(Clone, Copy, Default, Debug, PartialEq, Eq)]
pub struct Object {
    pub kind: u8,
    pub level: u8,
    pub shops: u8,
}

impl Subject {
    pub fn label(self) -> Label
        ensures { result ≡ record { level = self.level; shops = self.shops } }
    {
        let Subject { level, shops, .. } = self;
        Label { level, shops }
    }
}

impl Object {
    pub fn label(self) -> Label
        ensures { result ≡ record { level = self.level; shops = self.shops } }
    {
        let Object { level, shops, .. } = self;
        Label { level, shops }
    }
}

#[repr(C)]
#[derive(Clone, Copy, Default, Debug, PartialEq, Eq)]
pub struct Handle {
    pub way: u8,
    pub object: u8,
    pub mark: u8,
}

// Where an object stands: its slot, by the number that stands beside it.
ghost use Rattle.std.specs.Prelude.{◌≡◌, true, not, ◌&&◌, cond, ◌<◌, eqb};
ghost use Rattle.tables.specs.Records.{no_object};
ghost use Rattle.tables.specs.Slots.{Found, Free, Seated, First, Home, repeated, single};

use crate::{FREE, OBJECT_NUMBERS, OBJECTS, Object};
use std::array;

// A slot with the object y and the number n is in use, and its number is o.
fn is_same(y: Object, n: u64, o: u64) -> bool
    ensures { result ≡ (not (eqb y.kind 0) && eqb n o) }
{
    y.kind != FREE && n == o
}

// The slot of object o, which is looked for at o modulo OBJECTS first; OBJECTS where it is not live.
pub fn slot_of(objects: [Object; OBJECTS], numbers: [u64; OBJECTS], o: u64) -> u64
    ensures { Found objects numbers o result }
{
    let guess = o as usize % OBJECTS;
    if is_same(objects[guess], numbers[guess], o) {
        return guess as u64;
    }
    for i in 0..OBJECTS {
        if is_same(objects[i], numbers[i], o) {
            return i as u64;
        }
    }
    OBJECT_NUMBERS
}

// A slot with the object y and the index i is not `but`, and is free.
fn is_free(y: Object, i: u64, but: u64) -> bool
    ensures { result ≡ (not (eqb i but) && eqb y.kind 0) }
{
    i != but && y.kind == FREE
}

// A free slot, but not the slot `but`: o modulo OBJECTS where that is free, else the lowest that is, else OBJECTS.
fn free_slot(objects: [Object; OBJECTS], o: u64, but: u64) -> u64
    ensures { Free objects but result }
{
    let guess = o % OBJECT_NUMBERS;
    if is_free(objects[guess as usize], guess, but) {
        return guess;
    }
    for (i, y) in objects.iter().enumerate() {
        if is_free(*y, i as u64, but) {
            return i as u64;
        }
    }
    OBJECT_NUMBERS
}

// The slot of object o, or where it is not live a free one for it, but not the slot `but`.
pub fn seat_of(objects: [Object; OBJECTS], numbers: [u64; OBJECTS], o: u64, but: u64) -> u64
    ensures { Seated objects numbers o but result }
{
    let at = slot_of(objects, numbers, o);
    if at < OBJECT_NUMBERS {
        return at;
    }
    free_slot(objects, o, but)
}

// Slot i is in use, and so is one before it that has its number.
fn is_repeated(objects: [Object; OBJECTS], numbers: [u64; OBJECTS], i: usize) -> bool
    requires { i < 64 }
    ensures { result ≡ repeated objects numbers i }
{
    let o = numbers[i];
    objects[i].kind != FREE && (0..i).any(|j| is_same(objects[j], numbers[j], o))
}

// Every object stands in the slot at which its number is looked for first: then no two have one number.
fn are_home(objects: [Object; OBJECTS], numbers: [u64; OBJECTS]) -> bool
    ensures { result ≡ true → Home objects numbers }
{
    (0..OBJECTS).all(|i| objects[i].kind == FREE || numbers[i] as usize % OBJECTS == i)
}

// y, or a free object where its number stands before it.
fn once(y: Object, again: bool) -> Object
    ensures { result ≡ cond again no_object y }
{
    if again { Object::default() } else { y }
}

// The objects, but of slots in use that have one number only the first.
pub fn single(objects: [Object; OBJECTS], numbers: [u64; OBJECTS]) -> [Object; OBJECTS]
    ensures { result ≡ single objects numbers }
{
    if are_home(objects, numbers) {
        return objects;
    }
    array::from_fn(|i| once(objects[i], is_repeated(objects, numbers, i)))
}

// The lowest number from o on that a slot in use has; 0 where none has one.
pub fn from_on(objects: [Object; OBJECTS], numbers: [u64; OBJECTS], o: u64) -> u64
    ensures { First objects numbers o result }
{
    let mut nearest: Option<u64> = None;
    for i in 0..OBJECTS {
        let n = numbers[i];
        if objects[i].kind != FREE && o <= n && nearest.is_none_or(|m| n < m) {
            nearest = Some(n);
        }
    }
    nearest.unwrap_or(0)
}

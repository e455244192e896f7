// The slots of the objects that a call names by their numbers.
ghost use Rattle.std.specs.Prelude.{◌≡◌, ℕ, get_or};
ghost use Rattle.model.specs.Calls.{decode};
ghost use Rattle.model.specs.Tables.Numbers.{Distinct};
ghost use Rattle.tables.specs.Slots.{slot_used, Seated};
ghost use Rattle.gatekeeper.specs.View.{direct};
ghost use Rattle.gatekeeper.specs.Numbering.{noted, Both, Lift};

use calls::{Call, Numbers};
use tables::{OBJECT_NUMBERS, OBJECTS, Object, slots};

// A call with the slots of objects in place of their numbers; and the objects' numbers with those of new objects beside their slots.
#[derive(Clone, Copy)]
pub struct Seats {
    pub numbers: [u64; OBJECTS],
    pub call: Call,
}

// The slot of a second new object where none is left for it: that of no other, so that the two differ. (A number and no Option: the call by slot has it in place
// of the object's, and is refused for it as `Room` says.)
const NO_SLOT: u64 = OBJECT_NUMBERS + 1;

fn noted(mut numbers: [u64; OBJECTS], i: u64, o: u64) -> [u64; OBJECTS]
    ensures { result ≡ noted numbers i o }
{
    if i < OBJECT_NUMBERS {
        numbers[i as usize] = o;
    }
    numbers
}

// The slot of a new object of number o, which is noted beside it.
fn makes(objects: [Object; OBJECTS], numbers: &mut [u64; OBJECTS], o: u64) -> u64
    ensures seat { Seated objects numbers.old o 64 result }
    ensures noted { numbers.new ≡ noted numbers.old result o }
{
    let i = slots::seat_of(objects, *numbers, o, OBJECT_NUMBERS);
    *numbers = noted(*numbers, i, o);
    i
}

// The slots of two new objects of the numbers c and d, which are noted beside them.
fn makes_both(
    objects: [Object; OBJECTS],
    numbers: &mut [u64; OBJECTS],
    c: u64,
    d: u64,
) -> (u64, u64)
    ensures seats { Both objects numbers.old c d result.0 result.1 }
    ensures noted { numbers.new ≡ noted (noted numbers.old result.0 c) result.1 d }
{
    let x = slots::seat_of(objects, *numbers, c, OBJECT_NUMBERS);
    let mut y = x;
    if c != d {
        let z = slots::seat_of(objects, *numbers, d, x);
        y = if z < OBJECT_NUMBERS { z } else { NO_SLOT };
    }
    *numbers = noted(*numbers, x, c);
    *numbers = noted(*numbers, y, d);
    (x, y)
}

// The call by slots. Its code, and the numbers of it that are of no object, stay.
pub fn located(objects: [Object; OBJECTS], mut numbers: [u64; OBJECTS], mut call: Call) -> Seats
    ensures lift { (e f : ℕ) → Distinct (slot_used objects) (λ i. get_or numbers i 0) 64 →
        Lift objects numbers (decode (direct call.code call.numbers.a call.numbers.b call.numbers.c call.numbers.d e f))
        (decode (direct call.code result.call.numbers.a result.call.numbers.b result.call.numbers.c result.call.numbers.d e f)) result.numbers }
    ensures others { ((call.code ≡ 2 → ⊥) → (call.code ≡ 13 → ⊥) → result.call.numbers.a ≡ call.numbers.a)
        × ((call.code ≡ 3 → ⊥) → (call.code ≡ 4 → ⊥) → (call.code ≡ 5 → ⊥) → (call.code ≡ 6 → ⊥) → (call.code ≡ 10 → ⊥) → (call.code ≡ 14 → ⊥) → result.call.numbers.b ≡ call.numbers.b)
        × ((call.code ≡ 17 → ⊥) → (result.call.numbers.c ≡ call.numbers.c) × (result.call.numbers.d ≡ call.numbers.d))
        × ((call.code ≡ 2 → ⊥) → (call.code ≡ 3 → ⊥) → (call.code ≡ 4 → ⊥) → (call.code ≡ 17 → ⊥) → result.numbers ≡ numbers) }
    ensures rest { (result.call.code ≡ call.code) × (result.call.numbers.e ≡ call.numbers.e) × (result.call.numbers.f ≡ call.numbers.f) }
{
    let Numbers { a, b, c, d, .. } = call.numbers;
    match call.code {
        2 => call.numbers.a = makes(objects, &mut numbers, a),
        3 | 4 => call.numbers.b = makes(objects, &mut numbers, b),
        5 | 6 | 10 | 14 => call.numbers.b = slots::slot_of(objects, numbers, b),
        13 => call.numbers.a = slots::slot_of(objects, numbers, a),
        17 => (call.numbers.c, call.numbers.d) = makes_both(objects, &mut numbers, c, d),
        _ => {}
    }
    Seats { numbers, call }
}

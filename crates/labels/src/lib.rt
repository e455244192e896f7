// Labels as numbers: a level and a set of shop marks are one number of 16 bits, 256 times the level and the set. What a call names and what a record holds
// are the two bytes apart (`Label`); a need is one number.
#![tactic(auto)]

ghost use Rattle.std.specs.Prelude.{◌≡◌};
ghost use Rattle.model.specs.Label.{label, leq, join};
ghost use Rattle.model.specs.Sets.{lost};
ghost use Rattle.labels.specs.Codes.{coded};

// How many sets there are: what a level counts in a number.
pub const SETS: u16 = 256;

// The largest set that a call may name, as a number of 64 bits: the marks of all eight shop groups.
pub const EVERY_SHOP: u64 = 255;

// A level, and a set of shop marks.
#[derive(Clone, Copy, Default, Debug, PartialEq, Eq)]
pub struct Label {
    pub level: u8,
    pub shops: u8,
}

impl Label {
    // The label as one number.
    pub fn code(self) -> u16
        ensures { coded result ≡ label self.level self.shops }
    {
        self.level as u16 * SETS + self.shops as u16
    }
}

// Label b is at least label a: its level is, and its set includes that of a. (Where b has every binary digit of a, it is so by both at once: this is asked
// first, since most often the two are one, or a is the least label.)
pub fn is_at_most(a: u16, b: u16) -> bool
    ensures { result ≡ leq (coded a) (coded b) }
{
    let x = a % SETS;
    let y = b % SETS;
    a & b == a || a / SETS <= b / SETS && x & y == x
}

// The higher level, and all marks of both.
pub fn joined(a: u16, b: u16) -> u16
    ensures { coded result ≡ join (coded a) (coded b) }
{
    (a / SETS).max(b / SETS) * SETS + (a % SETS | b % SETS)
}

// How many marks a set has lost that fell to another: those that it had and has no more are counted.
pub fn lost(had: u8, has: u8) -> u8
    ensures { result ≡ lost had has }
{
    let left = had & has;
    (had ^ left).count_ones() as u8
}

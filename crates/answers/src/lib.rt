// The answer to a call, and what is read off it.
#![tactic(auto)]

ghost use Rattle.std.specs.Prelude.{◌≡◌};
ghost use Rattle.model.specs.Calls.{outcome};
ghost use Rattle.answers.specs.Telling.{told, letter_of, level_of, value_of, lost_of, refuses, number_of};

// Why a call, or a record that stands for none, is refused: RULES R1 to R10, R12 and R15 to R17, by their numbers.
#[derive(Clone, Copy, Debug, PartialEq, Eq)]
pub enum Refusal {
    UnknownCode = 1,
    NoSubject = 2,
    NumberTaken = 3,
    NoObject = 4,
    IsPipe = 5,
    LevelTooHigh = 6,
    PlaceUnfit = 7,
    WrongDirection = 8,
    Flow = 9,
    StillOpen = 10,
    RecordBroken = 12,
    Frozen = 15,
    SameSubject = 16,
    TooManyObjects = 17,
}

impl Refusal {
    pub fn number(self) -> u8
        ensures { result ≡ number_of self }
    {
        self as u8
    }
}

// A call that is not refused, with the level: no label got smaller, or some did, and then with how many marks were lost.
#[derive(Clone, Copy, Debug, PartialEq, Eq)]
pub enum Granted {
    Allowed(u8),
    Lowered(u8, u8),
}

pub type Answer = Result<Granted, Refusal>;

// The outcome of an answer as its letter: A, L or R.
pub fn letter(a: Answer) -> u8
    ensures { result ≡ letter_of (told a) }
{
    match a {
        Ok(Granted::Allowed(_)) => b'A',
        Ok(Granted::Lowered(_, _)) => b'L',
        Err(_) => b'R',
    }
}

// The level in an answer, or the number of its refusal.
pub fn value(a: Answer) -> u8
    ensures { result ≡ value_of (told a) }
{
    match a {
        Ok(Granted::Allowed(l) | Granted::Lowered(l, _)) => l,
        Err(r) => r.number(),
    }
}

// The level in an answer, 0 in a refusal.
pub fn level(a: Answer) -> u8
    ensures { result ≡ level_of (told a) }
{
    match a {
        Ok(Granted::Allowed(l) | Granted::Lowered(l, _)) => l,
        Err(_) => 0,
    }
}

// How many marks were lost, 0 where nothing is lowered.
pub fn lost(a: Answer) -> u8
    ensures { result ≡ lost_of (told a) }
{
    match a {
        Ok(Granted::Lowered(_, k)) => k,
        _ => 0,
    }
}

pub fn is_refused(a: Answer) -> bool
    ensures { result ≡ refuses (told a) }
{
    a.is_err()
}

// The answer to a call that is not refused: whether some level got smaller, and the level that it gives.
pub fn not_refused(lower: bool, level: u8, lost: u8) -> Answer
    ensures { told result ≡ outcome lower level lost }
{
    if lower {
        return Ok(Granted::Lowered(level, lost));
    }
    Ok(Granted::Allowed(level))
}

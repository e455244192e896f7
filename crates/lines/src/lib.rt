// What clerks type: a line of pipelines, read from left to right (RULES L1 to L5, R18, R19, R125). Nothing is kept of it: a stage is read where it stands, as often as it is
// asked for. What is read is in specs/Line.antt, how in specs/Reading.antt.
#![tactic(auto)]

ghost use Rattle.std.specs.Prelude.{◌≡◌, Some, None, ◌-◌, ◌≤◌, ◌<◌, length, IfSome, if◌then◌else◌};
ghost use Rattle.lines.specs.Line.{Judges};
ghost use Rattle.lines.specs.Reading.{is_digit, skip, digits, numeral, signed, behind, ended_at, staged};
ghost use Rattle.lines.specs.Told.{numeral_of, signed_of, end_of, ending, staged_of, grown_to, Counts, number_of, said};

// Why a line is refused, with the rules' numbers.
#[derive(Clone, Copy, Debug, PartialEq, Eq)]
pub enum LineError {
    NotALine = 18,
    TooLong = 19,
}

impl LineError {
    pub fn number(self) -> u64
        ensures { result ≡ number_of self }
    {
        self as u64
    }
}

// The most stages that a pipeline may have.
pub const MOST_STAGES: usize = 8;

// What stands behind a stage: a bar or a semicolon, with the bytes behind it, or nothing.
#[derive(Clone, Copy)]
pub enum End<'a> {
    Bar(&'a [u8]),
    Semicolon(&'a [u8]),
    Nothing,
}

impl<'a> End<'a> {
    // The bytes behind it.
    pub fn behind(self) -> &'a [u8]
        ensures { result.now ≡ behind (ending self.entry) }
    {
        match self {
            End::Bar(rest) | End::Semicolon(rest) => rest,
            End::Nothing => &[],
        }
    }
}

// A stage: its program, and the numbers of `<` and `>` where it has them.
#[derive(Clone, Copy)]
pub struct Stage {
    pub program: u64,
    pub from: Option<u64>,
    pub into: Option<u64>,
}

// Each reader below takes the bytes that are left, and gives what stands first in them and the bytes behind it, or None where it does not stand there.

// ---- a number

// The value of a digit.
fn digit(b: u8) -> Option<u64>
    ensures { result ≡ (if is_digit b then Some (b - 48) else None) }
{
    match b {
        b'0'..=b'9' => Some((b - b'0') as u64),
        _ => None,
    }
}

// The number that digit d makes of v: no zero stands in front, and no number has more than 64 bits.
fn grown(v: u64, d: u64) -> Option<u64>
    ensures { result ≡ grown_to v d }
{
    if v == 0 {
        return None;
    }
    v.checked_mul(10)?.checked_add(d)
}

// The bytes from the first one on that is no space.
fn skipped(line: &[u8]) -> &[u8]
    ensures rest { result.now ≡ skip line.now }
    ensures within { length result.now ≤ length line.now }
{
    let mut rest = line;
    while let Some((b' ', behind)) = rest.split_first() {
        rest = behind;
    }
    rest
}

// The number whose first digits gave v.
fn more_digits(line: &[u8], v: u64) -> Option<(u64, &[u8])>
    ensures read { numeral_of result ≡ digits v line.now }
    ensures within { IfSome result (λ r. length r.1.now ≤ length line.now) }
{
    let mut n = v;
    let mut rest = line;
    while let Some((b, behind)) = rest.split_first() {
        let Some(d) = digit(*b) else {
            break;
        };
        n = grown(n, d)?;
        rest = behind;
    }
    Some((n, rest))
}

fn read_number(line: &[u8]) -> Option<(u64, &[u8])>
    ensures read { numeral_of result ≡ numeral line.now }
    ensures shorter { IfSome result (λ r. length r.1.now < length line.now) }
{
    let (b, behind) = line.split_first()?;
    more_digits(behind, digit(*b)?)
}

// ---- a stage

// A sign and its number, where the sign is next.
fn read_sign(line: &[u8], sign: u8) -> Option<(Option<u64>, &[u8])>
    ensures read { signed_of result ≡ signed sign line.now }
    ensures within { IfSome result (λ r. length r.1.now ≤ length line.now) }
{
    let rest = skipped(line);
    match rest.split_first() {
        Some((b, behind)) if *b == sign => {
            let (n, behind) = read_number(skipped(behind))?;
            Some((Some(n), behind))
        }
        _ => Some((None, rest)),
    }
}

fn read_end(line: &[u8]) -> Option<End>
    ensures read { end_of result ≡ ended_at line.now }
    ensures within { IfSome result (λ e. length (behind (ending e)) ≤ length line.now) }
{
    match line.split_first() {
        None => Some(End::Nothing),
        Some((b'|', behind)) => Some(End::Bar(behind)),
        Some((b';', behind)) => Some(End::Semicolon(behind)),
        Some(_) => None,
    }
}

// A stage, with spaces before it, and what stands behind it.
#[tactic(auto, unfolding(crate::specs::Reading::staged))]
pub fn read_stage(line: &[u8]) -> Option<(Stage, End)>
    ensures read { staged_of result ≡ staged line.now }
    ensures shorter { IfSome result (λ r. length (behind (ending r.1)) < length line.now) }
{
    let (program, rest) = read_number(skipped(line))?;
    let (from, rest) = read_sign(rest, b'<')?;
    let (into, rest) = read_sign(rest, b'>')?;
    let end = read_end(skipped(rest))?;
    Some((
        Stage {
            program,
            from,
            into,
        },
        end,
    ))
}

// ---- pipelines, and the line

// How many stages the first pipeline has, and the bytes behind the semicolon that ends it, where one does.
#[tactic(auto, using(crate::proofs::Counting::counting))]
pub fn read_pipeline(line: &[u8]) -> Option<(usize, Option<&[u8]>)>
    ensures read { Counts line.now result }
    ensures shorter { IfSome result (λ r. IfSome r.1 (λ l. length l.now < length line.now)) }
{
    let mut stages = 0;
    let mut rest = line;
    loop {
        let (_, end) = read_stage(rest)?;
        stages += 1;
        match end {
            End::Bar(behind) => rest = behind,
            End::Semicolon(behind) => return Some((stages, Some(behind))),
            End::Nothing => return Some((stages, None)),
        }
    }
}

// What is said of bytes before any call is made.
#[tactic(auto, using(crate::proofs::Judging::judging))]
pub fn verdict(line: &[u8]) -> Result<(), LineError>
    ensures { Judges line.now (said result) }
{
    let mut long = false;
    let mut rest = line;
    loop {
        let Some((stages, behind)) = read_pipeline(rest) else {
            return Err(LineError::NotALine);
        };
        long |= MOST_STAGES < stages;
        match behind {
            Some(behind) => rest = behind,
            None => break,
        }
    }
    if long {
        return Err(LineError::TooLong);
    }
    Ok(())
}

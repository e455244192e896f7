// The journal's records (RULES J8 to J24, G11): what stands at an offset, what a body says, and the writer.
// What the bytes mean is in specs/Calls.antt, Record.antt and Journal.antt, and what each answer means in specs/Answers.antt.
#![tactic(auto)]

ghost use Rattle.std.specs.Prelude.{◌≡◌, ◌+◌, ◌≤◌, length};
ghost use Rattle.std.specs.Option.{option_map};
ghost use Rattle.number.specs.Put.{put};
ghost use Rattle.journal.specs.Answers.{numbers_of, entry_answer, body_answer, record_answer, length_in};
ghost use Rattle.journal.specs.Calls.{most_numbers, arity_of};
ghost use Rattle.journal.specs.Record.{encodes, fitting, recording, recorded};
ghost use Rattle.journal.specs.Journal.{Part, entry_at, arguments_in, body_in};

use calls::{Call, Numbers};

// The longest record, in bytes: a buffer of this size is never too short.
pub const LONGEST_RECORD: usize = 62;

// How many numbers the call of each code takes, from code 0 on; every call takes one, and 0 says that there is no such call.
const ARITIES: [usize; 19] = [
    0, // no call
    3, // admit s, level, set
    3, // register o, level, set
    2, // create s, o
    4, // pipe s, o, r, w
    3, // open for reading s, o, p
    3, // open for writing s, o, p
    2, // read s, p
    2, // write s, p
    2, // fork s, c
    2, // exec s, o
    2, // close s, p
    1, // exit s
    1, // retire o
    3, // map s, o, p
    2, // mark s, p
    1, // freeze level
    6, // connect s, t, a, b, p, q
    2, // thread s, c
];

// How many numbers the call of a code takes; 0 where there is no such call.
fn arity(code: u64) -> usize
    ensures { result ≡ arity_of code }
{
    ARITIES.get(code as usize).copied().unwrap_or(0)
}

// ---- reading

// A record of a journal: its body starts at `start` and has `len` bytes, and the next record is at `next`.
#[derive(Clone, Copy, Debug, PartialEq, Eq)]
pub struct Record {
    pub start: usize,
    pub len: usize,
    pub next: usize,
}

// Refusal 11: a length that is malformed, or that runs past the end.
#[derive(Clone, Copy, Debug, PartialEq, Eq)]
pub struct Broken;

// The record at the offset `at` of a journal, which may be any number; none where no record is left.
fn record_at(journal: &[u8], at: usize) -> Result<Option<Record>, Broken>
    ensures { entry_answer result ≡ entry_at journal.now at }
{
    if journal.len() <= at {
        return Ok(None);
    }
    let Some((value, used)) = number::read_number(&journal[at..]) else {
        return Err(Broken);
    };
    let start = at + used;
    let len = value as usize;
    if journal.len() - start < len {
        return Err(Broken);
    }
    let next = start + len;
    Ok(Some(Record { start, len, next }))
}

// The `len` bytes from `start`, or as many of them as the journal has: a part of the journal, and no copy.
pub fn body_at(journal: &[u8], start: usize, len: usize) -> &[u8]
    ensures { Part journal.entry start len result }
{
    if journal.len() < start {
        return &journal[..0];
    }
    if journal.len() - start <= len {
        return &journal[start..];
    }
    &journal[start..start + len]
}

// A journal and the offset of the next record.
#[derive(Clone, Copy)]
pub struct Reader<'a> {
    pub journal: &'a [u8],
    pub at: usize,
}

impl<'a> Reader<'a> {
    // A reader at the start of a journal.
    pub fn new(journal: &'a [u8]) -> Reader<'a>
        ensures { (result.journal ≡ journal.entry) × (result.at ≡ 0) }
    {
        Reader { journal, at: 0 }
    }

    // The record at its offset; none where no record is left.
    pub fn next(self) -> Result<Option<Record>, Broken>
        ensures { entry_answer result ≡ entry_at self.entry.journal.now self.entry.at }
    {
        record_at(self.journal, self.at)
    }

    // The reader of the same journal, moved on.
    pub fn moved(self, at: usize) -> Reader<'a>
        ensures { (result.journal ≡ self.entry.journal) × (result.at ≡ at) }
    {
        Reader {
            journal: self.journal,
            at,
        }
    }

    // The body of a record: a part of the caller's journal, and no copy.
    pub fn body(self, start: usize, len: usize) -> &'a [u8]
        ensures { Part self.entry.journal start len result }
    {
        body_at(self.journal, start, len)
    }
}

// What a reader finds at an offset of a journal, which may be any number; none where no record is left. Every caller with a journal and
// an offset of its own asks this.
pub fn entry_at(journal: &[u8], at: usize) -> Result<Option<Record>, Broken>
    ensures { entry_answer result ≡ entry_at journal.now at }
{
    Reader { journal, at }.next()
}

// Why a body says no call.
#[derive(Clone, Copy, Debug, PartialEq, Eq)]
pub enum BadBody {
    // Refusal 1: a code that is no call's. The rest of the body is skipped.
    Unknown(u64),
    // Refusal 12: a number is malformed, missing or left over. The code is 0 where none was read.
    Malformed(u64),
}

// `n` numbers and nothing after them; none where one is malformed, missing or left over.
fn read_numbers(body: &[u8], n: usize) -> Option<Numbers>
    ensures { option_map numbers_of result ≡ arguments_in n body.now }
{
    if n == 0 {
        if body.len() == 0 {
            return Some(Numbers::default());
        }
        return None;
    }
    let (value, used) = number::read_number(body)?;
    let rest = read_numbers(&body[used..], n - 1)?;
    Some(Numbers {
        a: value,
        b: rest.a,
        c: rest.b,
        d: rest.c,
        e: rest.d,
        f: rest.e,
    })
}

// The call that a body says, with exactly its numbers.
pub fn read_body(body: &[u8]) -> Result<Call, BadBody>
    ensures { body_answer result ≡ body_in body.now }
{
    let Some((code, used)) = number::read_number(body) else {
        return Err(BadBody::Malformed(0));
    };
    let n = arity(code);
    if n == 0 {
        return Err(BadBody::Unknown(code));
    }
    let Some(numbers) = read_numbers(&body[used..], n) else {
        return Err(BadBody::Malformed(code));
    };
    Ok(Call { code, numbers })
}

// ---- writing

// Why no record is written.
#[derive(Clone, Copy, Debug, PartialEq, Eq)]
pub enum RecordError {
    // Refusal 1: a code that is no call's.
    UnknownCode,
    // Refusal 13: the record is longer than the buffer.
    TooLong,
}

// How many bytes some numbers take, one after the other. They are those of one record, so that the sum is small.
fn numbers_len(numbers: &[u64]) -> usize
    requires { length numbers.now ≤ 2 + most_numbers }
    ensures { result ≡ length (encodes numbers.now) }
{
    let mut sum: usize = 0;
    for n in numbers {
        sum += number::number_len(*n);
    }
    sum
}

// Writes some numbers, one after the other, where there is room for them all: the rest of the buffer is lent for each.
fn write_numbers(out: &mut [u8], numbers: &[u64]) -> usize
    requires { length (encodes numbers.now) ≤ length out.old }
    ensures count { result ≡ length (encodes numbers.now) }
    ensures buffer { out.new ≡ put (encodes numbers.now) out.old }
{
    let mut at: usize = 0;
    for n in numbers {
        at += number::write_number(&mut out[at..], *n).unwrap();
    }
    at
}

// Writes some numbers, one after the other, or nothing where the buffer is too short for them all.
fn write_all(out: &mut [u8], numbers: &[u64]) -> Result<usize, RecordError>
    requires { length numbers.now ≤ 2 + most_numbers }
    ensures answer { record_answer result ≡ fitting (encodes numbers.now) out.old }
    ensures buffer { out.new ≡ put (encodes numbers.now) out.old }
{
    if out.len() < numbers_len(numbers) {
        return Err(RecordError::TooLong);
    }
    Ok(write_numbers(out, numbers))
}

// Writes the record of a call over the front of `out`, and says how many bytes it has; the bytes after it keep their values.
pub fn write_record(out: &mut [u8], call: Call) -> Result<usize, RecordError>
    ensures answer { record_answer result ≡ recording call.code (numbers_of call.numbers) out.old }
    ensures buffer { out.new ≡ recorded call.code (numbers_of call.numbers) out.old }
    ensures short { length_in (record_answer result) ≤ LONGEST_RECORD }
{
    let code = call.code;
    let n = arity(code);
    if n == 0 {
        return Err(RecordError::UnknownCode);
    }
    let numbers = call.numbers;
    let body = [
        code, numbers.a, numbers.b, numbers.c, numbers.d, numbers.e, numbers.f,
    ];
    let len = numbers_len(&body[..n + 1]) as u64;
    let all = [
        len, code, numbers.a, numbers.b, numbers.c, numbers.d, numbers.e, numbers.f,
    ];
    write_all(out, &all[..n + 2])
}

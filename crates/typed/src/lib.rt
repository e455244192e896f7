// A typed line: its calls, made and counted one after the other on a monitor whose tally is lent (RULES L7 to L14, R18, R19, R125). Of the monitor this crate sees
// what a counted call promises, and nothing else. Which calls a line stands for is in specs/Calls.antt of crate `lines`.
#![tactic(auto)]

ghost use Rattle.std.specs.Prelude.{◌≡◌, ℕ, ◌-◌, ◌≤◌, ◌<◌, List, Some, slice_index_or};
ghost use Rattle.std.proofs.Math.Option.{Option};
ghost use Rattle.model.specs.Lists.{each};
ghost use Rattle.model.specs.Calls.{Raw, decode};
ghost use Rattle.gatekeeper.specs.View.{direct_of};
ghost use Rattle.answers.specs.Telling.{told};
ghost use Rattle.lines.specs.Line.{Reading, all};
ghost use Rattle.lines.specs.Line.{Pipeline as Stages};
ghost use Rattle.lines.specs.Reading.{Pipelined, Lined};
ghost use Rattle.lines.specs.Told.{stage_of};
ghost use Rattle.lines.specs.Calls.{uses, unused_call, stage_calls, counted_from, no_stage, pipeline_calls, calls_of};
ghost use Rattle.typed.specs.Typed.{Typed, Handed};
ghost use Rattle.typed.specs.Working.{counting, raw_of, raws_of, Works, Good, Stands};

use answers::{Answer, Granted};
use calls::{Call, Numbers};
use gatekeeper::Monitor;
use lines::Stage;
use tally::Tally;

// What a line comes to: how many of its calls were allowed, lowered and refused; or the number of its own refusal, 0 where it has none (the C interface).
#[repr(C)]
#[derive(Clone, Copy, Default)]
pub struct Outcome {
    pub allowed: u64,
    pub lowered: u64,
    pub refused: u64,
    pub refusal: u64,
}

// What a line hands back: the next monitor, and what it came to.
#[derive(Clone, Copy)]
pub struct Replied {
    pub monitor: Monitor,
    pub outcome: Outcome,
}

// A monitor with its tally, what the calls so far came to, and whether one of them was not refused. The flag is no Option around monitor and tally: both are there
// and are read where no call moved them too.
#[derive(Clone, Copy)]
pub struct Hand {
    pub monitor: Monitor,
    pub tally: Tally,
    pub outcome: Outcome,
    pub moved: bool,
}

// The numbers that a line's calls begin with: the shell, its first child and its first pipe.
#[derive(Clone, Copy)]
struct First {
    shell: u64,
    child: u64,
    pipe: u64,
}

impl First {
    fn nth_child(self, i: u64) -> u64
        ensures { result ≡ counted_from self.child i }
    {
        self.child.wrapping_add(i)
    }

    fn nth_pipe(self, i: u64) -> u64
        ensures { result ≡ counted_from self.pipe i }
    {
        self.pipe.wrapping_add(i)
    }
}

// ---- calls

// The calls of lines, each with its numbers in the rules' order.
#[derive(Clone, Copy)]
enum LineCall {
    // The shell, the pipe, and the places of its reading and its writing end.
    Pipe(u64, u64, u64, u64),
    // The child that opens an object, the object, and the place.
    Read(u64, u64, u64),
    Write(u64, u64, u64),
    // The shell and the child.
    Fork(u64, u64),
    // The child and its program.
    Exec(u64, u64),
    // Whose place it is, and the place.
    Close(u64, u64),
    // The child.
    Exit(u64),
}

impl LineCall {
    // Its code, and its numbers.
    #[tactic(auto, unfolding(model::specs::Calls::decode))]
    fn coded(self) -> Call
        ensures { decode (direct_of result) ≡ decode (raw_of self) }
    {
        let (code, a, b, c, d) = match self {
            LineCall::Pipe(shell, pipe, reads, writes) => (4, shell, pipe, reads, writes),
            LineCall::Read(child, object, place) => (5, child, object, place, 0),
            LineCall::Write(child, object, place) => (6, child, object, place, 0),
            LineCall::Fork(shell, child) => (9, shell, child, 0, 0),
            LineCall::Exec(child, program) => (10, child, program, 0, 0),
            LineCall::Close(holder, place) => (11, holder, place, 0, 0),
            LineCall::Exit(child) => (12, child, 0, 0, 0),
        };
        Call {
            code,
            numbers: Numbers {
                a,
                b,
                c,
                d,
                ..Numbers::default()
            },
        }
    }
}

impl Outcome {
    // One more answer, counted.
    fn counted(self, answer: Answer) -> Outcome
        ensures { result ≡ counting self (told answer) }
    {
        let mut out = self;
        match answer {
            Ok(Granted::Allowed(_)) => out.allowed = self.allowed.wrapping_add(1),
            Ok(Granted::Lowered(_, _)) => out.lowered = self.lowered.wrapping_add(1),
            Err(_) => out.refused = self.refused.wrapping_add(1),
        }
        out
    }
}

impl Hand {
    // A call, made and counted.
    fn made(self, call: LineCall) -> Hand
        ensures { Works self (raws_of (Some call)) result }
    {
        let coded = call.coded();
        let counted = tally::counted_call(self.monitor, self.tally, coded);
        let answer = counted.reply.answer;
        Hand {
            monitor: counted.reply.monitor,
            tally: counted.tally,
            outcome: self.outcome.counted(answer),
            moved: self.moved | !answers::is_refused(answer),
        }
    }

    // A call, where there is one.
    fn perhaps(self, call: Option<LineCall>) -> Hand
        ensures { Works self (raws_of call) result }
    {
        match call {
            Some(call) => self.made(call),
            None => self,
        }
    }

    // What is made for each number below n, one after the other.
    fn each<F: Fn(Hand, u64) -> Hand>(self, n: u64, make: F) -> Hand
        requires { (h : Hand) (i : ℕ) → i < n → F.pre make h i }
        ensures { (f : ℕ → List Raw) → ((h : Hand) (i : ℕ) (k : Hand) → i < n → F.post make h i k → Works h (f i) k) → Works self (each n f) result }
    {
        let mut h = self;
        for i in 0..n {
            h = make(h, i);
        }
        h
    }
}

// ---- a stage

// Whether child i uses a place.
fn is_used(i: u64, place: u64) -> bool
    requires { (i ≤ 7) × (place ≤ 13) }
    ensures { result ≡ uses i place }
{
    place + 2 == 2 * i || place == 2 * i + 1
}

// A place that child i does not use, closed.
fn close_unused(hand: Hand, child: u64, i: u64, place: u64) -> Hand
    requires { (i ≤ 7) × (place ≤ 13) }
    ensures { Works hand (unused_call child i place) result }
{
    if is_used(i, place) {
        return hand;
    }
    hand.made(LineCall::Close(child, place))
}

// Stage i: its child is made, closes what it does not use, opens what it was given, and runs its program.
fn stage(hand: Hand, first: First, pipes: u64, i: u64, s: Stage) -> Hand
    requires { (i ≤ 7) × (pipes ≤ 7) }
    ensures { Works hand (stage_calls first.shell pipes i (counted_from first.child i) (stage_of s)) result }
{
    let child = first.nth_child(i);
    hand.made(LineCall::Fork(first.shell, child))
        .each(2 * pipes, |h, place| close_unused(h, child, i, place))
        .perhaps(s.from.map(|object| LineCall::Read(child, object, 14)))
        .perhaps(s.into.map(|object| LineCall::Write(child, object, 15)))
        .made(LineCall::Exec(child, s.program))
}

// ---- a pipeline

// Its stages, n of them, which stand first in the bytes.
fn stages(hand: Hand, line: &[u8], n: u64, first: First) -> Hand
    requires { Stands line.now n }
    ensures { (p : Stages) (e : Option (List ℕ)) → Pipelined line.now p e
        → Works hand (each n (λ i. stage_calls first.shell (n - 1) i (counted_from first.child i) (slice_index_or (all p) i no_stage))) result }
{
    let mut h = hand;
    let mut rest = line;
    for i in 0..n {
        let (s, end) = lines::read_stage(rest).unwrap();
        h = stage(h, first, n - 1, i, s);
        rest = end.behind();
    }
    h
}

// The pipeline of n stages that stands first in the bytes.
fn pipeline(hand: Hand, line: &[u8], n: u64, first: First) -> Hand
    requires { Stands line.now n }
    ensures { (p : Stages) (e : Option (List ℕ)) → Pipelined line.now p e → Works hand (pipeline_calls first.shell first.child first.pipe (all p)) result }
{
    let pipes = n - 1;
    let ends = 2 * pipes;
    let joined = hand.each(pipes, |h, i| {
        h.made(LineCall::Pipe(first.shell, first.nth_pipe(i), 2 * i, 2 * i + 1))
    });
    stages(joined, line, n, first)
        .each(ends, |h, place| h.made(LineCall::Close(first.shell, place)))
        .each(n, |h, i| h.made(LineCall::Exit(first.nth_child(i))))
}

// ---- the line

// The pipelines of a good line, one after the other.
fn pipelines(hand: Hand, line: &[u8], first: First) -> Hand
    requires { Good line.now }
    ensures { (l : Reading) → Lined line.now l → Works hand (calls_of first.shell first.child first.pipe l) result }
{
    let mut h = hand;
    let mut rest = line;
    loop {
        let (n, behind) = lines::read_pipeline(rest).unwrap();
        h = pipeline(h, rest, n as u64, first);
        let Some(behind) = behind else {
            return h;
        };
        rest = behind;
    }
}

// What a line comes to, with the tally by value: nothing is done where it is refused.
pub fn counted_line(
    monitor: Monitor,
    tally: Tally,
    line: &[u8],
    shell: u64,
    child: u64,
    pipe: u64,
) -> Hand
    ensures { Handed monitor tally line.now shell child pipe result }
{
    let hand = Hand {
        monitor,
        tally,
        outcome: Outcome::default(),
        moved: false,
    };
    match lines::verdict(line) {
        Ok(()) => pipelines(hand, line, First { shell, child, pipe }),
        Err(e) => Hand {
            outcome: Outcome {
                refusal: e.number(),
                ..hand.outcome
            },
            ..hand
        },
    }
}

// A typed line: the tally is lent, and has the history's counts after it. A refused line leaves it as it was.
pub fn lent_line(
    monitor: Monitor,
    tally: &mut Tally,
    line: &[u8],
    shell: u64,
    child: u64,
    pipe: u64,
) -> Replied
    ensures { Typed monitor tally.old line.now shell child pipe result.outcome result.monitor tally.new }
{
    let out = counted_line(monitor, *tally, line, shell, child, pipe);
    *tally = out.tally;
    Replied {
        monitor: out.monitor,
        outcome: out.outcome,
    }
}

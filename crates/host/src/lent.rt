// A monitor and its tally as a struct that a host keeps and lends, in place of the lent bytes (RULES S1, H12, H23, H24, H29): nothing is parsed at a call, and nothing
// laid out. It has bytes and 66 numbers of 64 bits, each value of which is one, so that every value is a state. What can be false of it is what it says of itself
// (RULES F19).
ghost use Rattle.std.specs.Prelude.{◌≡◌, List, [], ◌∷◌, ℕ, length};
ghost use Rattle.gatekeeper.specs.View.{direct};
ghost use Rattle.quick.specs.Parts.{Tried};
ghost use Rattle.host.specs.Lending.{Lends, LendsLine, Begins, Assures};

use calls::{Call, Numbers};
use gatekeeper::Monitor;
use tally::Tally;
use typed::Outcome;

// A monitor and its tally, as a host keeps them.
#[repr(C)]
#[derive(Clone, Copy)]
pub struct State {
    pub monitor: Monitor,
    pub tally: Tally,
}

// ---- exported

// The empty tables, without a freeze, and a zero tally, whatever stood there.
#[unsafe(no_mangle)]
pub extern "C" fn gatekeeper_monitor_empty(state: &mut State)
    ensures { Begins state.new }
{
    *state = State {
        monitor: Monitor::empty(),
        tally: Tally { made: 0, gone: 0 },
    };
}

// The direct counted call on the monitor and the tally that are lent.
#[unsafe(no_mangle)]
pub extern "C" fn gatekeeper_monitor_call(
    state: &mut State,
    code: u64,
    a: u64,
    b: u64,
    c: u64,
    d: u64,
    e: u64,
    f: u64,
) -> u32
    ensures { Lends state.old (direct code a b c d e f) result state.new }
{
    let numbers = Numbers { a, b, c, d, e, f };
    let reply = tally::lent_call(state.monitor, &mut state.tally, Call { code, numbers });
    state.monitor = reply.monitor;
    crate::to_number(reply.answer)
}

// A typed line on the monitor and the tally that are lent: its calls, made one after the other, or nothing where it is refused.
#[unsafe(no_mangle)]
pub extern "C" fn gatekeeper_monitor_line(
    state: &mut State,
    line: &[u8],
    shell: u64,
    child: u64,
    pipe: u64,
) -> Outcome
    ensures { LendsLine state.old line.now shell child pipe result state.new }
{
    let replied = typed::lent_line(state.monitor, &mut state.tally, line, shell, child, pipe);
    state.monitor = replied.monitor;
    replied.outcome
}

// A state that says nothing of itself, as one that was loaded from kept bytes or changed by the host, made one that calls may rely on: what dangles is emptied, a slot that repeats a number freed, the needs are
// worked out anew, and 1 is returned. Where some level is below its need it cannot be, and 0 is returned; then calls on it go on working out what they go by.
#[unsafe(no_mangle)]
pub extern "C" fn gatekeeper_monitor_assure(state: &mut State) -> u32
    ensures { Assures state.old result state.new }
{
    state.monitor = state.monitor.assured();
    u32::from(state.monitor.sure)
}

// An open (code 5 or 6), or a close, that changes no need, done in place on the parts of the struct as they lie in memory; 0, and nothing is touched, where it is not that simple: then
// `gatekeeper_monitor_call` is to be made.
#[unsafe(no_mangle)]
pub extern "C" fn gatekeeper_quick_open(
    numbers: &[u64],
    subjects: &[u8],
    objects: &[u8],
    handles: &mut [u8],
    needs: &[u16],
    counts: &mut [u64],
    freeze: u8,
    sure: u8,
    code: u64,
    s: u64,
    o: u64,
    p: u64,
) -> u32
    ensures { Tried (5 ∷ 6 ∷ []) numbers.now subjects.now objects.now handles.old needs.now counts.old freeze sure
        (direct code s o p 0 0 0) result handles.new counts.new }
{
    match quick::opened(
        numbers, subjects, objects, handles, needs, counts, freeze, sure, code, s, o, p,
    ) {
        Some(answer) => crate::to_number(answer),
        None => 0,
    }
}

#[unsafe(no_mangle)]
pub extern "C" fn gatekeeper_quick_close(
    subjects: &[u8],
    objects: &[u8],
    handles: &mut [u8],
    needs: &[u16],
    counts: &mut [u64],
    freeze: u8,
    sure: u8,
    s: u64,
    p: u64,
) -> u32
    ensures { (ns : List ℕ) → length ns ≡ 64 → Tried (11 ∷ []) ns subjects.now objects.now handles.old needs.now counts.old freeze sure
        (direct 11 s p 0 0 0 0) result handles.new counts.new }
{
    match quick::closed(
        subjects, objects, handles, needs, counts, freeze, sure, s, p,
    ) {
        Some(answer) => crate::to_number(answer),
        None => 0,
    }
}

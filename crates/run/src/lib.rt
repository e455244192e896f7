// A list of direct calls, run from empty tables (RULES H1 to H3, B24).
// What stands in the two buffers is in specs/Buffers.antt.
#![tactic(auto)]

ghost use Rattle.std.specs.Prelude.{◌≡◌, ◌++◌, ◌*◌, ◌/◌, length, take, drop};
ghost use Rattle.model.specs.Tables.{empty};
ghost use Rattle.model.specs.Calls.{answers};
ghost use Rattle.model.specs.Demand3.{Demand3};
ghost use Rattle.gatekeeper.specs.View.{view, Honest, Right};
ghost use Rattle.run.specs.Buffers.{lesser, calls_in, bytes, answers_in};

use calls::{Call, Numbers};
use gatekeeper::Monitor;

// The monitor at the end, and how many calls were made.
#[derive(Clone, Copy)]
pub struct Ran {
    pub monitor: Monitor,
    pub made: usize,
}

// Makes the calls of the list one after the other, from empty tables, as many as the list has and as there is room to answer. A call
// is seven numbers, its code first; an answer is three bytes, its letter, then its level or refusal number, then how many marks were lost.
pub fn run(calls: &[u64], out: &mut [u8]) -> Ran
    ensures made { result.made ≡ lesser (length calls.now / 7) (length out.old / 3) }
    ensures written { out.new ≡ bytes (answers empty (calls_in calls.now result.made)) ++ drop (result.made * 3) out.old }
    ensures demand3 { Demand3 (calls_in calls.now result.made) (answers_in (take (result.made * 3) out.new)) (view result.monitor) }
    ensures right { Right result.monitor }
    ensures honest { Honest result.monitor }
    ensures sure { result.monitor.sure ≡ 1 }
{
    let n = (calls.len() / 7).min(out.len() / 3);
    let mut m = Monitor::empty();
    for i in 0..n {
        let at = i * 7;
        let r = m.call(Call {
            code: calls[at],
            numbers: Numbers {
                a: calls[at + 1],
                b: calls[at + 2],
                c: calls[at + 3],
                d: calls[at + 4],
                e: calls[at + 5],
                f: calls[at + 6],
            },
        });
        let to = i * 3;
        out[to] = answers::letter(r.answer);
        out[to + 1] = answers::value(r.answer);
        out[to + 2] = answers::lost(r.answer);
        m = r.monitor;
    }
    Ran {
        monitor: m,
        made: n,
    }
}

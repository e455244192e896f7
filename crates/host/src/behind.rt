// The chain behind a refusal 9, written over a struct that the host lends (RULES A12, A14): of the lent bytes and of the lent state, which are only read.
ghost use Rattle.gatekeeper.specs.View.{Honest, view, direct, direct_of};
ghost use Rattle.model.specs.Tables.{clean};
ghost use Rattle.model.specs.Calls.{decode};
ghost use Rattle.host.specs.Behind.{Left, Tells, WhyBytes, WhyLent};

use crate::lent::State;
use calls::{Call, Numbers};
use gatekeeper::Monitor;
use why::Chain;

// The chain behind a refusal 9 of a call on the monitor m, over the chain that is lent, and how many steps it has; 0 where there is none, and then the lent one stays.
fn told(m: Monitor, call: Call, chain: &mut Chain) -> u32
    ensures left { Left chain.old result chain.new }
    ensures tells { Honest m → Tells (clean (view m)) (decode (direct_of call)) result chain.new }
{
    let found = why::why(m, call);
    if found.count == 0 {
        return 0;
    }
    *chain = found;
    u32::from(found.count)
}

// ---- exported

// The chain behind the refusal 9 of a call on the monitor that the bytes stand for, over the chain that is lent, and how many steps it has; 0, and nothing is touched, where the call is not
// refused with 9, and for bytes of another length.
#[unsafe(no_mangle)]
pub extern "C" fn gatekeeper_why(
    state: &[u8],
    code: u64,
    a: u64,
    b: u64,
    c: u64,
    d: u64,
    e: u64,
    f: u64,
    chain: &mut Chain,
) -> u32
    ensures { WhyBytes state.now (direct code a b c d e f) chain.old result chain.new }
{
    let Some(state) = state.as_array() else {
        return 0;
    };
    let numbers = Numbers { a, b, c, d, e, f };
    told(stored::load_monitor(state), Call { code, numbers }, chain)
}

// The same of the state that is lent.
#[unsafe(no_mangle)]
pub extern "C" fn gatekeeper_monitor_why(
    state: &State,
    code: u64,
    a: u64,
    b: u64,
    c: u64,
    d: u64,
    e: u64,
    f: u64,
    chain: &mut Chain,
) -> u32
    ensures { WhyLent state.now (direct code a b c d e f) chain.old result chain.new }
{
    let numbers = Numbers { a, b, c, d, e, f };
    told(state.monitor, Call { code, numbers }, chain)
}

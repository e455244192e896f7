// The gatekeeper for a host in C or Rust (RULES S1, H4 to H15, H29): the tables, the calls, the journal reader and writer. Each
// function below "exported" has its plain name in the archive; a slice crosses as a pointer and a length, and an answer as a number
// (specs/Numbers.antt). The monitor with its tally crosses as lent bytes, laid out as in crate `stored`. Every byte string of that length is a
// monitor, so that a host can hand in nothing wrong but the length, and then nothing is touched. As a struct that
// is lent it crosses in `lent`.
#![tactic(auto)]

ghost use Rattle.std.specs.Prelude.{◌≡◌, ◌∷◌, [], ◌+◌, ◌*◌, ◌≤◌, ◌<◌, eqb, length};
ghost use Rattle.std.specs.Option.{unwrap_or};
ghost use Rattle.number.specs.Leb.{largest, number};
ghost use Rattle.number.specs.Put.{put, fitted};
ghost use Rattle.journal.specs.Record.{longest_record, recording, recorded};
ghost use Rattle.replay.specs.Replay.{reply, reply_room, Begun};
ghost use Rattle.answers.specs.Telling.{told};
ghost use Rattle.gatekeeper.specs.View.{direct};
ghost use Rattle.stored.specs.State.{state_bytes, Sized, made_of, gone_of, blank_bytes, Blank};
ghost use Rattle.host.specs.Numbers.{version, sized, answer_number, answer_in, record_number, roomy_number, reading_used, reading_value};
ghost use Rattle.host.specs.Demand3.{Called};
ghost use Rattle.host.specs.Typing.{Types};

use answers::Answer;
use calls::{Call, Numbers};
use journal::RecordError;
use stored::{FREEZE_AT, STATE_BYTES};
use tables::NO_FREEZE;
use typed::Outcome;

mod behind;
mod lent;
mod seen;

// The version, its three parts in one number (specs/Numbers.antt).
const VERSION: u32 = 65536 * 8 + 256 * 0 + 0;

// The answer to a call on bytes of another length, which is no answer of a call.
const UNSIZED: u32 = 0;

// And to a line on such bytes, which is the number of no refusal.
const UNSIZED_LINE: u64 = 255;

// ---- answers as numbers

// Three bytes in one number: 65,536 times the first, 256 times the second, and the third.
fn packed(high: u8, middle: u8, low: u8) -> u32
    ensures { result ≡ 65536 * high + 256 * middle + low }
{
    65536 * u32::from(high) + 256 * u32::from(middle) + u32::from(low)
}

// The number of marks lost, the letter's byte, and the level or the number of the refusal.
fn to_number(a: Answer) -> u32
    ensures number { result ≡ answer_number (told a) }
    ensures back { answer_in result ≡ told a }
{
    packed(answers::lost(a), answers::letter(a), answers::value(a))
}

// ---- exported

// The version of this archive, for a host that would see whether it is its header's.
#[unsafe(no_mangle)]
pub extern "C" fn gatekeeper_version() -> u32
    ensures { result ≡ version }
{
    VERSION
}

// How many bytes a host has to keep for a monitor and its tally.
#[unsafe(no_mangle)]
pub extern "C" fn gatekeeper_state_bytes() -> usize
    ensures { result ≡ state_bytes }
{
    STATE_BYTES
}

// The empty tables, without a freeze, and a zero tally, over the whole buffer; false, and nothing is touched, where it has another length.
#[unsafe(no_mangle)]
pub extern "C" fn gatekeeper_empty(state: &mut [u8]) -> bool
    ensures answer { result ≡ eqb (length state.old) state_bytes }
    ensures buffer { state.new ≡ sized state.old blank_bytes state.old }
    ensures tables { Sized state.old → Blank state.new }
{
    let Some(state) = state.as_mut_array::<STATE_BYTES>() else {
        return false;
    };
    state.fill(0);
    state[FREEZE_AT] = NO_FREEZE;
    true
}

// The direct counted call on the monitor and the tally that the bytes stand for; 0, and nothing is touched, where there are more or fewer.
#[unsafe(no_mangle)]
pub extern "C" fn gatekeeper_call(
    state: &mut [u8],
    code: u64,
    a: u64,
    b: u64,
    c: u64,
    d: u64,
    e: u64,
    f: u64,
) -> u32
    ensures { Called state.old (direct code a b c d e f) result state.new }
{
    let Some(state) = state.as_mut_array() else {
        return UNSIZED;
    };
    let monitor = stored::load_monitor(state);
    let mut tally = stored::load_tally(state);
    let numbers = Numbers { a, b, c, d, e, f };
    let reply = tally::lent_call(monitor, &mut tally, Call { code, numbers });
    if reply.answer.is_ok() {
        stored::store(state, reply.monitor, tally);
    }
    to_number(reply.answer)
}

// A typed line on the monitor and the tally that the bytes stand for: its calls, made one after the other, or nothing where it is refused; `UNSIZED_LINE`, and nothing is touched,
// where there are more bytes or fewer.
#[unsafe(no_mangle)]
pub extern "C" fn gatekeeper_line(
    state: &mut [u8],
    line: &[u8],
    shell: u64,
    child: u64,
    pipe: u64,
) -> Outcome
    ensures { Types state.old line.now shell child pipe result state.new }
{
    let Some(state) = state.as_mut_array() else {
        return Outcome {
            refusal: UNSIZED_LINE,
            ..Outcome::default()
        };
    };
    let monitor = stored::load_monitor(state);
    let tally = stored::load_tally(state);
    let out = typed::counted_line(monitor, tally, line, shell, child, pipe);
    if out.moved {
        stored::store(state, out.monitor, out.tally);
    }
    out.outcome
}

// Handles made, over the history of calls; 0 where the bytes have another length.
#[unsafe(no_mangle)]
pub extern "C" fn gatekeeper_made(state: &[u8]) -> u64
    ensures { result ≡ sized state.now (made_of state.now) 0 }
{
    let Some(state) = state.as_array() else {
        return 0;
    };
    stored::load_tally(state).made
}

// Handles gone, over the history of calls; 0 where the bytes have another length.
#[unsafe(no_mangle)]
pub extern "C" fn gatekeeper_gone(state: &[u8]) -> u64
    ensures { result ≡ sized state.now (gone_of state.now) 0 }
{
    let Some(state) = state.as_array() else {
        return 0;
    };
    stored::load_tally(state).gone
}

// The reply to a journal, from empty tables: the text's length, or 0 where the buffer has no room for it: then its front stands there. A buffer of
// replay::REPLY_ROOM bytes has room for every reply.
#[unsafe(no_mangle)]
pub extern "C" fn gatekeeper_replay(journal: &[u8], out: &mut [u8]) -> usize
    ensures answer { result ≡ unwrap_or (fitted (reply journal.now) out.old) 0 }
    ensures buffer { 0 < result → out.new ≡ put (reply journal.now) out.old }
    ensures begun { Begun (reply journal.now) out.old out.new }
    ensures room { reply_room ≤ length out.old → result ≡ length (reply journal.now) }
{
    replay::replay(journal, out).unwrap_or(0)
}

// The record of a call over the front of a buffer: its length in bytes and 256, or the number of the refusal, where nothing is touched. A buffer of
// journal::LONGEST_RECORD bytes has room for every record.
#[unsafe(no_mangle)]
pub extern "C" fn gatekeeper_record(
    out: &mut [u8],
    code: u64,
    a: u64,
    b: u64,
    c: u64,
    d: u64,
    e: u64,
    f: u64,
) -> u32
    ensures answer { result ≡ record_number (recording code (a ∷ b ∷ c ∷ d ∷ e ∷ f ∷ []) out.old) }
    ensures buffer { out.new ≡ recorded code (a ∷ b ∷ c ∷ d ∷ e ∷ f ∷ []) out.old }
    ensures room { longest_record ≤ length out.old → result ≡ roomy_number code (a ∷ b ∷ c ∷ d ∷ e ∷ f ∷ []) }
{
    let numbers = Numbers { a, b, c, d, e, f };
    match journal::write_record(out, Call { code, numbers }) {
        Ok(n) => 256 + n as u32,
        Err(RecordError::UnknownCode) => 1,
        Err(RecordError::TooLong) => 13,
    }
}

// The journal's number at the front of some bytes: its value into the place that is lent, and how many bytes it takes; 0, and nothing is touched, where it is malformed.
#[unsafe(no_mangle)]
pub extern "C" fn gatekeeper_number(bytes: &[u8], value: &mut u64) -> u32
    ensures answer { result ≡ reading_used (number largest bytes.now) }
    ensures value { value.new ≡ reading_value (number largest bytes.now) value.old }
{
    let Some((n, used)) = number::read_number(bytes) else {
        return 0;
    };
    *value = n;
    used as u32
}

// Journals, replayed on the monitor (RULES P2 to P23). The reply to a whole journal is a definition in specs/Replay.antt; what one record
// does is in specs/One.antt.
#![tactic(auto)]

ghost use Rattle.std.specs.Prelude.{◌≡◌, ℕ, ◌≤◌, length};
ghost use Rattle.model.specs.Tally.{difference};
ghost use Rattle.number.specs.Put.{put, fitted};
ghost use Rattle.journal.specs.Journal.{body_in};
ghost use Rattle.answers.specs.Telling.{told};
ghost use Rattle.gatekeeper.specs.View.{view, Honest, Right};
ghost use Rattle.tally.specs.Counting.{counts_of};
ghost use Rattle.replay.specs.One.{One};
ghost use Rattle.replay.specs.Replay.{reply, largest_journal, Begun};
ghost use Rattle.replay.specs.Demand3.{Ended};
ghost use Rattle.replay.specs.Stage.{whole, refusal, Ends};

use answers::{Answer, Refusal};
use gatekeeper::Monitor;
use journal::{BadBody, Broken, Record};
use tally::Tally;
use text::{LONGEST_END, LONGEST_LINE};

// The longest journal that is run, in bytes. It has no more records than bytes.
pub const LARGEST_JOURNAL: usize = 65536;

// Room for the longest reply.
pub const REPLY_ROOM: usize = LONGEST_LINE * LARGEST_JOURNAL + LONGEST_END;

// A record's reply: the code as it was read and the answer; and what the record leaves, the next monitor and tally.
#[derive(Clone, Copy)]
pub struct Replied {
    pub monitor: Monitor,
    pub tally: Tally,
    pub code: u64,
    pub answer: Answer,
}

// Makes the call that a record's body stands for. A body that stands for none is refused and changes nothing.
pub fn one(m: Monitor, tally: Tally, body: &[u8]) -> Replied
    ensures { One m tally (body_in body.now) result.code (told result.answer) result.monitor result.tally }
{
    match journal::read_body(body) {
        Ok(call) => {
            let c = tally::counted_call(m, tally, call);
            Replied {
                monitor: c.reply.monitor,
                tally: c.tally,
                code: call.code,
                answer: c.reply.answer,
            }
        }
        Err(BadBody::Unknown(code)) => Replied {
            monitor: m,
            tally,
            code,
            answer: Err(Refusal::UnknownCode),
        },
        Err(BadBody::Malformed(code)) => Replied {
            monitor: m,
            tally,
            code,
            answer: Err(Refusal::RecordBroken),
        },
    }
}

// Made minus gone, modulo 2 to the 64th.
fn open_now(tally: Tally) -> u64
    ensures { result ≡ difference (counts_of tally) }
{
    tally.made.wrapping_sub(tally.gone)
}

// A journal that was run: the monitor and the tally at the end, and how many bytes its reply has; none where there is no room for it.
#[derive(Clone, Copy)]
pub struct Ran {
    pub monitor: Monitor,
    pub tally: Tally,
    pub written: Option<usize>,
}

// Answers the records of a journal one after the other, from empty tables, and writes the text. Where there is no room for all of it, its first
// lines stand in the buffer, and the run stops there.
fn records(journal: &[u8], out: &mut [u8]) -> Ran
    requires { length journal.now ≤ largest_journal }
    ensures text { Ends (whole journal.now) out.old out.new result.written }
    ensures end { (k : ℕ) → result.written ≡ Some k → Ended journal.now (view result.monitor) (counts_of result.tally) }
    ensures right { Right result.monitor }
    ensures honest { Honest result.monitor }
    ensures sure { result.monitor.sure ≡ 1 }
{
    let mut m = Monitor::empty();
    let mut tally = Tally { made: 0, gone: 0 };
    let mut at: usize = 0;
    let mut position: u32 = 1;
    let mut used: usize = 0;
    loop {
        match journal::entry_at(journal, at) {
            Ok(Some(Record { start, len, next })) => {
                let r = one(m, tally, journal::body_at(journal, start, len));
                let letter = answers::letter(r.answer);
                let value = answers::value(r.answer);
                let lost = answers::lost(r.answer);
                let Some(n) = text::write_line(
                    &mut out[used..],
                    position,
                    r.code,
                    letter,
                    value,
                    lost,
                ) else {
                    return Ran {
                        monitor: m,
                        tally,
                        written: None,
                    };
                };
                used += n;
                at = next;
                position += 1;
                m = r.monitor;
                tally = r.tally;
            }
            Err(Broken) => {
                let Some(n) = text::write_line(&mut out[used..], position, 0, b'R', 11, 0) else {
                    return Ran {
                        monitor: m,
                        tally,
                        written: None,
                    };
                };
                used += n;
                break;
            }
            Ok(None) => break,
        }
    }
    let Some(n) = text::write_end(&mut out[used..], tally.made, tally.gone, open_now(tally)) else {
        return Ran {
            monitor: m,
            tally,
            written: None,
        };
    };
    Ran {
        monitor: m,
        tally,
        written: Some(used + n),
    }
}

// Writes the two lines for a journal that is too long.
fn too_long(out: &mut [u8]) -> Option<usize>
    ensures { Ends refusal out.old out.new result }
{
    let n = text::write_line(out, 1, 0, b'R', 14, 0)?;
    let k = text::write_end(&mut out[n..], 0, 0, 0)?;
    Some(n + k)
}

// A journal, run from empty tables: the text of its reply, how many bytes that has, and the monitor and tally at the end. Where the buffer has no
// room for all of the text, that is the answer, and its first lines stand there; which monitor and tally are then handed back is left open, but that
// the monitor is sure, honest and right. A buffer of REPLY_ROOM bytes has room for every reply.
pub fn run(journal: &[u8], out: &mut [u8]) -> Ran
    ensures answer { result.written ≡ fitted (reply journal.now) out.old }
    ensures buffer { (k : ℕ) → result.written ≡ Some k → out.new ≡ put (reply journal.now) out.old }
    ensures begun { Begun (reply journal.now) out.old out.new }
    ensures room { REPLY_ROOM ≤ length out.old → length (reply journal.now) ≤ length out.old }
    ensures end { (k : ℕ) → result.written ≡ Some k → Ended journal.now (view result.monitor) (counts_of result.tally) }
    ensures right { Right result.monitor }
    ensures honest { Honest result.monitor }
    ensures sure { result.monitor.sure ≡ 1 }
{
    if LARGEST_JOURNAL < journal.len() {
        return Ran {
            monitor: Monitor::empty(),
            tally: Tally { made: 0, gone: 0 },
            written: too_long(out),
        };
    }
    records(journal, out)
}

// The reply alone.
pub fn replay(journal: &[u8], out: &mut [u8]) -> Option<usize>
    ensures answer { result ≡ fitted (reply journal.now) out.old }
    ensures buffer { (k : ℕ) → result ≡ Some k → out.new ≡ put (reply journal.now) out.old }
    ensures begun { Begun (reply journal.now) out.old out.new }
    ensures room { REPLY_ROOM ≤ length out.old → length (reply journal.now) ≤ length out.old }
{
    run(journal, out).written
}

// The program over standard input (RULES S1, P1, P15, P16): a journal in, the replies out. Which bytes come in, and which
// of the bytes handed to a write it takes, is the host's. What is made of the bytes that came, and what is handed to which
// port, is promised here.
#![tactic(auto)]

ghost use Rattle.std.specs.Prelude.{◌≤◌, length};
ghost use Rattle.replay.specs.Replay.{reply_room};
ghost use Rattle.serve.specs.Serving.{Finished, journal_room, Sized, Replying, Answering, Serving, Ran, Roomy};

use ports::{Filled, Host, Intake, Message, Port, Said, Sent};
use replay::LARGEST_JOURNAL;
use std::io::{Stderr, Stdin, Stdout};

// Room for the longest journal and one byte more, by which a longer one is known.
const JOURNAL_ROOM: usize = LARGEST_JOURNAL + 1;

// Why a run replied nothing, or not all; each was said.
#[derive(Clone, Copy)]
pub enum Failure {
    // A write of the reply failed.
    Unwritten { sent: Sent, said: Said },
    // The reply to so many bytes has no room in its buffer.
    NoRoom { read: usize, said: Said },
    // The journal's buffer is full, and no longer than the longest journal: whether the journal ends there is not known,
    // and nothing is run.
    Unended(Said),
    // A read failed.
    Unread(Said),
}

// What came of what was read: the reply to it was written, or why not.
pub type Served = Result<Sent, Failure>;

// What came of a run: how far reading came, and what was made of what was read.
#[derive(Clone, Copy)]
pub struct Run {
    read: Intake,
    came: Served,
}

// Reads standard input until it ends, a read fails or the buffer is full.
fn fill(host: Host, buf: &mut [u8]) -> Intake
    ensures { Finished result buf.new }
{
    let mut at = ports::start(Port::Input);
    while ports::goes_on(at, buf.len()) {
        at = ports::more(host, at, buf);
    }
    at
}

// Replies to the first `n` bytes of `journal`, by way of `out`.
fn respond(host: Host, journal: &[u8], n: usize, out: &mut [u8]) -> Served
    requires { n ≤ length journal.now }
    ensures { Replying n result journal.now out.old out.new }
{
    let Some(k) = replay::replay(&journal[..n], out) else {
        let said = ports::say(
            host,
            Port::Error,
            b"payrun: the reply is longer than the room for it\n",
            Message::NoRoom,
        );
        return Err(Failure::NoRoom { read: n, said });
    };
    let sent = ports::send(host, Port::Output, &out[..k], &journal[..n]);
    if !ports::is_whole(sent) {
        let said = ports::say(
            host,
            Port::Error,
            b"payrun: standard output could not be written\n",
            Message::Unwritten,
        );
        return Err(Failure::Unwritten { sent, said });
    }
    Ok(sent)
}

// What the program makes of its input, once that is read: all of the program but the read.
fn answer(host: Host, journal: &[u8], read: Intake, out: &mut [u8]) -> Served
    requires { Finished read journal.now }
    ensures { Answering read result journal.now out.old out.new }
{
    match ports::came_to(read) {
        Filled::Ended(n) => respond(host, journal, n, out),
        Filled::Full => {
            if journal.len() <= LARGEST_JOURNAL {
                let said = ports::say(
                    host,
                    Port::Error,
                    b"payrun: the journal may go on after the room for it\n",
                    Message::Unended,
                );
                return Err(Failure::Unended(said));
            }
            respond(host, journal, journal.len(), out)
        }
        Filled::Failed => {
            let said = ports::say(
                host,
                Port::Error,
                b"payrun: standard input could not be read\n",
                Message::Unread,
            );
            Err(Failure::Unread(said))
        }
    }
}

// Standard input to its end, or until the first buffer is full; the replies to standard output, by way of the second.
// What fails is said on standard error.
pub fn serve(host: Host, journal: &mut [u8], out: &mut [u8]) -> Run
    ensures { Serving result journal.new out.old out.new }
{
    let read = fill(host, journal);
    let came = answer(host, journal, read, out);
    Run { read, came }
}

fn journal_space() -> [u8; JOURNAL_ROOM]
    ensures { Sized journal_room result }
{
    [0; JOURNAL_ROOM]
}

// Room for the longest reply.
fn reply_space() -> [u8; replay::REPLY_ROOM]
    ensures { Sized reply_room result }
{
    [0; replay::REPLY_ROOM]
}

// The whole program: a run with room for every journal and every reply.
pub fn program(input: Stdin, output: Stdout, error: Stderr) -> Run
    ensures ran { Ran result }
    ensures roomy { Roomy result }
{
    let mut journal = journal_space();
    let mut out = reply_space();
    let host = ports::host_of(input, output, error);
    serve(host, &mut journal, &mut out)
}

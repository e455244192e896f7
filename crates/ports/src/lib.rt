// The program's ports, standard input, output and error: all that it reads and writes (RULES P1, P15, P16). No contract
// can say that a read or a write was made. Three lines of this file make them, one in `read` and two in `write`. They have
// to be believed, and so have the lines of `more`, `send` and `say` that call these two. `Intake`, `Sent` and `Said` have
// private fields: only this file makes one, and who hands one on has called these functions. What was read, sent or said
// with it is in their contracts.
#![tactic(auto)]

ghost use Rattle.std.specs.Prelude.{◌≡◌, ◌≤◌, pos, negsuc, length, IfOk, IfErr};
ghost use Rattle.std.specs.Io.{ReadsAtMost};
ghost use Rattle.replay.specs.Replay.{reply};
ghost use Rattle.ports.specs.Ports.{number_of, Moved, step, brought_by, begun, Advanced, goes, filled};
ghost use Rattle.ports.specs.Ports.{words, Sending, Saying};

use std::io;
use std::io::{Read, Stderr, Stdin, Stdout};

// The numbers by which the host knows its three ports, POSIX's. Numbers, and no match on the port: `number_of` promises them.
const STDIN_FILENO: i32 = 0;

const STDOUT_FILENO: i32 = 1;

const STDERR_FILENO: i32 = 2;

// The host's three streams, by which its ports are read and written. Only `main` can hand them on.
#[derive(Clone, Copy)]
pub struct Host {
    input: Stdin,
    output: Stdout,
    error: Stderr,
}

#[derive(Clone, Copy)]
pub enum Port {
    Input,
    Output,
    Error,
}

// What a read came to. Three cases, and no `Result` of a count, in which 0 would have to stand for the end.
#[derive(Clone, Copy)]
pub enum Step {
    // It failed.
    Failed,
    // The input has ended.
    Ended,
    // So many bytes came.
    Brought(usize),
}

// How far reading has come: from which port, how many bytes stand at the start of the buffer, and what the last read
// came to.
#[derive(Clone, Copy)]
pub struct Intake {
    from: Port,
    done: usize,
    last: Step,
}

// What reading came to, once it is over. Three cases, and no `Result`: its `Ok` would hold two of them still.
#[derive(Clone, Copy)]
pub enum Filled {
    // So many bytes stand at the start of the buffer, and then the input ended.
    Ended(usize),
    // The buffer is full. Whether the input goes on is not known.
    Full,
    // A read failed.
    Failed,
}

// A reply that was handed to a port: to which one, to how many bytes of a journal it replies, how many bytes it has, and
// whether all of them were taken.
#[derive(Clone, Copy)]
pub struct Sent {
    to: Port,
    read: usize,
    wrote: usize,
    whole: bool,
}

// What is said where something fails.
#[derive(Clone, Copy)]
pub enum Message {
    Unread,
    Unended,
    NoRoom,
    Unwritten,
}

// A message that was handed to a port. Where that fails too, nothing is left to say it to.
#[derive(Clone, Copy)]
pub struct Said {
    to: Port,
    message: Message,
}

// The number by which the host knows a port.
fn descriptor(port: Port) -> i32
    ensures { result ≡ number_of port }
{
    match port {
        Port::Input => STDIN_FILENO,
        Port::Output => STDOUT_FILENO,
        Port::Error => STDERR_FILENO,
    }
}

// The streams of the host.
pub fn host_of(input: Stdin, output: Stdout, error: Stderr) -> Host
    ensures read { result.input ≡ input }
    ensures written { result.output ≡ output }
    ensures told { result.error ≡ error }
{
    Host {
        input,
        output,
        error,
    }
}

// The number that POSIX's read answers: how many bytes came, or -1 where it failed.
fn answered(got: io::Result<usize>, buf: &[u8]) -> isize
    requires { ReadsAtMost got buf.now }
    ensures moved { Moved (length buf.now) result }
    ensures brought { IfOk got (λ n. result ≡ pos n) }
    ensures failed { IfErr got (λ e. result ≡ negsuc 0) }
{
    match got {
        Ok(n) => n as isize,
        Err(_) => -1,
    }
}

// One read of the port with this number. Standard input alone can be read: of any other it fails.
fn read(host: Host, number: i32, buf: &mut [u8]) -> isize
    ensures { Moved (length buf.old) result }
{
    if number == STDIN_FILENO {
        let mut input = host.input;
        let got = input.read(buf);
        return answered(got, buf);
    }
    -1
}

// Hands bytes to the port with this number, and says whether all were taken. Standard output and error alone can be
// written: any other takes none.
fn write(host: Host, number: i32, text: &[u8]) -> bool {
    if number == STDOUT_FILENO {
        return host.output.write_all(text).is_ok();
    }
    if number == STDERR_FILENO {
        return host.error.write_all(text).is_ok();
    }
    false
}

// What the number means that a read answers.
fn step_of(number: isize) -> Step
    ensures { result ≡ step number }
{
    if number < 0 {
        return Step::Failed;
    }
    if number > 0 {
        return Step::Brought(number as usize);
    }
    Step::Ended
}

fn brought(last: Step) -> usize
    ensures { result ≡ brought_by last }
{
    match last {
        Step::Failed | Step::Ended => 0,
        Step::Brought(n) => n,
    }
}

// Before the first read.
pub fn start(from: Port) -> Intake
    ensures { result ≡ begun from }
{
    Intake {
        from,
        done: 0,
        last: Step::Brought(0),
    }
}

// One read, behind the bytes that stand in the buffer.
pub fn more(host: Host, at: Intake, buf: &mut [u8]) -> Intake
    requires { at.done ≤ length buf.old }
    ensures { Advanced at result buf.old buf.new }
{
    let from = at.from;
    let done = at.done;
    let number = read(host, descriptor(from), &mut buf[done..]);
    let last = step_of(number);
    Intake {
        from,
        done: done + brought(last),
        last,
    }
}

// Whether there is a read to make: the last one brought bytes, and there is room for more.
pub fn goes_on(at: Intake, room: usize) -> bool
    ensures { result ≡ goes at room }
{
    match at.last {
        Step::Failed | Step::Ended => false,
        Step::Brought(_) => at.done < room,
    }
}

// What reading came to that does not go on.
pub fn came_to(at: Intake) -> Filled
    ensures { result ≡ filled at }
{
    match at.last {
        Step::Failed => Filled::Failed,
        Step::Ended => Filled::Ended(at.done),
        Step::Brought(_) => Filled::Full,
    }
}

// Writes a reply. Nothing but the reply to `journal`, whole, can be handed to it.
pub fn send(host: Host, to: Port, text: &[u8], journal: &[u8]) -> Sent
    requires { text.now ≡ reply journal.now }
    ensures { Sending to (length journal.now) (length text.now) result }
{
    let whole = write(host, descriptor(to), text);
    Sent {
        to,
        read: journal.len(),
        wrote: text.len(),
        whole,
    }
}

pub fn is_whole(sent: Sent) -> bool
    ensures { result ≡ sent.whole }
{
    sent.whole
}

// Writes a message. Nothing but the words of `message` can be handed to it.
pub fn say(host: Host, to: Port, text: &[u8], message: Message) -> Said
    requires { text.now ≡ words message }
    ensures { Saying to message result }
{
    write(host, descriptor(to), text);
    Said { to, message }
}

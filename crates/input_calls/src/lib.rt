// Standard input, one call of read at a time: what a call's answer means, and how much was read so far. Only `read_once` calls read. These functions are
// for the project's own crates: what they require, every caller proves.
#![tactic(auto)]

ghost use Rattle.std.specs.Prelude.{◌≡◌, ◌<◌, length};
ghost use Rattle.input_calls.specs.declared.Got.TheVariants.{Interrupted};
ghost use Rattle.input_calls.specs.Reading.{outcome, failure, given, over, unread, after, abandoned, Read};

use std::io;
use std::io::{ErrorKind, Read, Stdin};

// What a read gave.
#[derive(Clone, Copy, PartialEq, Eq)]
pub enum Got {
    Bytes(usize),
    End,
    Interrupted,
    Failed,
}

// Standard input as far as it was read: how many bytes the calls gave, and what the last one gave. No other crate can make one: whoever hands on one that
// says End, or Failed, was given it by `read_once` or `abandon`.
#[derive(Clone, Copy)]
pub struct Input {
    bytes: u64,
    last: Got,
}

impl Got {
    // How many bytes it gave.
    fn given(self) -> u64
        ensures { result ≡ given self }
    {
        match self {
            Got::Bytes(n) => n as u64,
            _ => 0,
        }
    }

    // Whether no read is made any more.
    fn over(self) -> bool
        ensures { result ≡ over self }
    {
        matches!(self, Got::End | Got::Failed)
    }
}

impl Input {
    // What the last read gave.
    pub fn last(self) -> Got
        ensures { result ≡ self.last }
    {
        self.last
    }

    // The input, given up behind a read that was interrupted: nothing more is read of it.
    pub fn abandon(self) -> Input
        requires { self.last ≡ Interrupted }
        ensures { result ≡ abandoned self }
    {
        Input {
            last: Got::Failed,
            ..self
        }
    }

    // The input behind a call that gave something. A number of bytes that no u64 holds counts as a failure.
    fn after(self, got: Got) -> Input
        ensures { result ≡ after self got }
    {
        match self.bytes.checked_add(got.given()) {
            Some(bytes) => Input { bytes, last: got },
            None => Input {
                last: Got::Failed,
                ..self
            },
        }
    }
}

// Before the first read. A function of the crate: tools/test-form finds by its name that the input is begun in one place.
pub fn unread() -> Input
    ensures { result ≡ unread }
{
    Input {
        bytes: 0,
        last: Got::Bytes(0),
    }
}

// What a call of read answered.
fn outcome(answer: io::Result<usize>, buffer: &[u8]) -> Got
    ensures { result ≡ outcome answer (length buffer.now) }
{
    match answer {
        Ok(0) => Got::End,
        Ok(count) => Got::Bytes(count.min(buffer.len())),
        Err(error) => failure(error.kind()),
    }
}

// A call that failed.
fn failure(kind: ErrorKind) -> Got
    ensures { result ≡ failure kind }
{
    match kind {
        ErrorKind::Interrupted => Got::Interrupted,
        _ => Got::Failed,
    }
}

// One call of read on standard input; none where an earlier one gave the end or failed. The buffer has room: with none, read answers 0 before the end too.
pub fn read_once(mut stdin: Stdin, input: Input, buffer: &mut [u8]) -> Input
    requires { 0 < length buffer.old }
    ensures { Read input result buffer.new }
{
    if input.last.over() {
        return input;
    }
    let answer = stdin.read(buffer);
    input.after(outcome(answer, buffer))
}

// What the printing program reads, fed to a running mark. The head of the program (mark) says what is proved of it. These functions are for the
// project's own crates: what they require, every caller proves.
#![tactic(auto)]

ghost use Rattle.std.specs.Prelude.{◌≡◌};
ghost use Rattle.input_feeding.specs.declared.Stopped.TheVariants.{Refused};
ghost use Rattle.input_feeding.specs.declared.Unfed.TheVariants as UnfedCases;
ghost use Rattle.input_calls.specs.Reading.{InFront};
ghost use Rattle.input_feeding.specs.Turns.{Turned};
ghost use Rattle.input_feeding.specs.Marking.{as_stopped, FirstFed, FedInParts, MarkedInParts};

use acceptance::Key;
use input_calls::{Got, Input};
use marks::{RefusedMark, Running};
use refusals::Refusal;
use std::io::Stdin;

// Why there is no mark: the file is refused, or standard input cannot be read.
#[derive(Clone, Copy)]
pub enum Stopped {
    Refused(Refusal),
    Unread,
}

impl From<RefusedMark> for Stopped {
    ghost from_gives = { λ e s. s ≡ Refused e.refusal };

    fn from(e: RefusedMark) -> Stopped {
        Stopped::Refused(e.refusal)
    }
}

// Why a turn hands no mark on: the feed was refused, and the running mark goes back as it was handed in, or standard input cannot be read.
#[derive(Clone, Copy)]
enum Unfed {
    Refused(RefusedMark),
    Unread,
}

impl From<RefusedMark> for Unfed {
    ghost from_gives = { λ e u. u ≡ UnfedCases.Refused e };

    fn from(e: RefusedMark) -> Unfed {
        Unfed::Refused(e)
    }
}

impl From<Unfed> for Stopped {
    ghost from_gives = { λ u s. s ≡ as_stopped u };

    fn from(u: Unfed) -> Stopped {
        match u {
            Unfed::Refused(e) => e.into(),
            Unfed::Unread => Stopped::Unread,
        }
    }
}

// The mark of what was read to its end, and the input as it was left.
#[derive(Clone, Copy)]
pub struct Marking {
    pub marked: Result<Running, Stopped>,
    pub input: Input,
}

// What a turn makes of what a read gave: bytes at the front of the buffer are fed to the running mark by its key's table. At the end there is no next mark.
fn turn(got: Got, m: Running, words: &[u64], buffer: &[u8]) -> Result<Option<Running>, Unfed>
    requires { InFront got buffer.now }
    ensures { Turned got m words.now buffer.now result }
{
    match got {
        Got::Bytes(n) => Ok(Some(m.feed_table(words, &buffer[..n], 8)?)),
        Got::End => Ok(None),
        Got::Interrupted | Got::Failed => Err(Unfed::Unread),
    }
}

// Feeds the rest of the input, until a read gives the end or fails, or a feed is refused. It ends: each part makes the mark longer, and number 7 bounds it.
fn feed_rest(stdin: Stdin, start: Running, words: &[u64], mut input: Input) -> Marking
    ensures { FedInParts start words.now input result }
{
    let mut buffer = [0u8; 262144];
    let mut m = start;
    let marked = loop {
        input = input_reading::read_some(stdin, input, &mut buffer);
        match turn(input.last(), m, words, &buffer) {
            Ok(Some(next)) => m = next,
            Ok(None) => break Ok(m),
            Err(unfed) => break Err(unfed.into()),
        }
    };
    Marking { marked, input }
}

// The first bytes of the file, fed by the table of the key, which is made.
fn feed_first(key: Key, first: &[u8], words: &mut [u64; 1024]) -> Result<Running, Refusal>
    ensures { FirstFed key first.now words.old words.new result }
{
    let m = Running::begin(key)?;
    tables::make(key, words)?;
    Ok(m.feed_table(words, first, 8)?)
}

// The mark of the file that begins with the first bytes and goes on to the input's end, fed by the table of the key.
pub fn mark_file(stdin: Stdin, key: Key, first: &[u8], input: Input) -> Marking
    ensures { MarkedInParts key first.now input result }
{
    let mut words = [0u64; 1024];
    match feed_first(key, first, &mut words) {
        Ok(next) => feed_rest(stdin, next, &words, input),
        Err(refusal) => Marking {
            marked: Err(Stopped::Refused(refusal)),
            input,
        },
    }
}

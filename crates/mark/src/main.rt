// The printing program: standard input is a line with the key in hexadecimal and then a file's bytes, standard output the file's mark under the key.
//
// Proved, of `run` and of all that it calls: what the answer of a call of read means (`input_calls::outcome`); that the bytes that a read gave, at the front
// of the buffer as it is then, are fed, an end is taken for the end and a failure for a failure (`input_feeding::turn`); that behind the end the state of the
// input stays (`input_calls::read_once`); and that the text is what `printed` says of parts with as many bytes as the state of the input counts, where that
// state says End or where no further byte changes the text, or that there is none because it says Failed. A state is made in `input_calls` alone.
// Not proved, since no contract reaches behind a read: that a read puts the input's next bytes at the front of the buffer, which is assumed; that
// `read_once` hands on what its call answered; that no read's state is dropped, so that none is left out and none made behind the end; that the parts are the
// bytes that were read; that no more is read than the text needs; and that `main` prints what `run` gives: tools/test-form and tools/test-program test these.
#![tactic(auto)]

ghost use Rattle.std.specs.Prelude.{◌≡◌, length};
ghost use Rattle.mark.specs.Program.{Ran};
ghost use Rattle.mark.specs.Heads.{HeadRead, Known, Answered};

use input_calls::{Got, Input};
use input_feeding::{Marking, Stopped};
use key_lines::LineError;
use refusals::Refusal;
use std::io::{Print, Stdin};

// The length of the text at the front of a buffer, none where standard input cannot be read; and the input as it was left.
#[derive(Clone, Copy)]
struct Text {
    length: Option<usize>,
    input: Input,
}

// The bytes at the front of the head, and the input behind them.
#[derive(Clone, Copy)]
struct Head {
    count: usize,
    input: Input,
}

// Reads until the first bytes decide what the key's line says, or a read gives the end or fails. It reads no more than 18 bytes: these decide it.
fn read_head(stdin: Stdin, mut input: Input, head: &mut [u8]) -> Head
    requires { 18 ≡ length head.old }
    ensures { HeadRead input head.new result }
{
    let mut count = 0;
    loop {
        input = input_reading::read_behind(stdin, input, head, count);
        let Got::Bytes(n) = input.last() else {
            break;
        };
        count += n;
        if !key_lines::undecided(&head[..count]) {
            break;
        }
    }
    Head { count, input }
}

// The text for an input that begins with the bytes of head, which decide what the key's line says or are the whole input. Answers its length.
fn answer(stdin: Stdin, head: &[u8], input: Input, out: &mut [u8; 96]) -> Text
    requires { Known head.now input }
    ensures { Answered head.now input out.old out.new result }
{
    match key_lines::key_line(head) {
        Ok((key, at)) => {
            let Marking { marked, input } = input_feeding::mark_file(
                stdin,
                key,
                &head[at..],
                input,
            );
            let length = match marked {
                Ok(m) => Some(printing::report(m, out)),
                Err(Stopped::Refused(r)) => Some(printing::refusal(r, out)),
                Err(Stopped::Unread) => None,
            };
            Text { length, input }
        }
        Err(LineError::NoKey) => Text {
            length: Some(printing::no_key(out)),
            input,
        },
        Err(LineError::TooLarge) => Text {
            length: Some(printing::refusal(Refusal::KeyRange, out)),
            input,
        },
    }
}

// The text for the input, at the front of out.
fn run(stdin: Stdin, input: Input, out: &mut [u8; 96]) -> Text
    ensures { Ran input out.old out.new result }
{
    let mut head = [0u8; 18];
    let Head { count, input } = read_head(stdin, input, &mut head);
    if input.last() == Got::Failed {
        return Text {
            length: None,
            input,
        };
    }
    answer(stdin, &head[..count], input, out)
}

// Writes the text, or a line on standard error that says that it cannot.
fn print(rt: &HostRuntime, text: &[u8]) {
    if rt.stdout().write_all(text).is_err() {
        let _ = rt
            .stderr()
            .write_all(b"mark: standard output cannot be written\n");
    }
}

// The line where a read failed.
fn unread(rt: &HostRuntime) {
    let _ = rt
        .stderr()
        .write_all(b"mark: standard input cannot be read\n");
}

fn main(rt: HostRuntime) {
    let mut out = [0u8; 96];
    let text = run(rt.stdin(), input_calls::unread(), &mut out);
    match text.length {
        Some(n) => print(&rt, &out[..n]),
        None => unread(&rt),
    }
}

// Reads of standard input, made again where a signal interrupts them. The head of `input_calls` says what a state of the input is. These functions are for
// the project's own crates: what they require, every caller proves.
#![tactic(auto)]

ghost use Rattle.std.specs.Prelude.{◌≡◌, ◌<◌, length, take, drop};
ghost use Rattle.input_calls.specs.declared.Got.TheVariants.{Interrupted};
ghost use Rattle.input_calls.specs.Reading.{Read};

use input_calls::{Got, Input};
use std::io::Stdin;

// One read; where a signal interrupts it, another one. A proved loop has to end: no run makes as many turns.
pub fn read_some(stdin: Stdin, mut input: Input, buffer: &mut [u8]) -> Input
    requires { 0 < length buffer.old }
    ensures read { Read input result buffer.new }
    ensures fact { result.last ≡ Interrupted → ⊥ }
{
    for _ in 0..u64::MAX {
        input = input_calls::read_once(stdin, input, buffer);
        if input.last() != Got::Interrupted {
            return input;
        }
    }
    input.abandon()
}

// Reads behind the first bytes of a buffer, which stay.
pub fn read_behind(stdin: Stdin, input: Input, buffer: &mut [u8], done: usize) -> Input
    requires { done < length buffer.old }
    ensures read { Read input result (drop done buffer.new) }
    ensures fact { result.last ≡ Interrupted → ⊥ }
    ensures buffer_unchanged { take done buffer.new ≡ take done buffer.old }
{
    read_some(stdin, input, &mut buffer[done..])
}

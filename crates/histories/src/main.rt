// The program that lists every small history on standard output. What it writes the library decides.
#![tactic(auto)]

ghost use Rattle.std.specs.Prelude.{◌≡◌, ◌≤◌, length, take};
ghost use Rattle.enumeration.specs.Lines.{enumeration_text, enumeration_room};

use enumeration::ROOM;
use reader::Task;
use std::env::FillError;
use std::rt::Env;
use streams::{Served, Streams};

fn main(rt: HostRuntime) {
    // Counted by their bytes, since a word need not be text. Each program counts by itself: `told_usage` is handed the number, of which its promise speaks, and a public function that counts would need a contract, which could not say what it counts.
    let words = (0..usize::MAX)
        .take_while(|&i| !matches!(rt.arg(i, &mut [0u8; 1]), Err(FillError::NotPresent)))
        .count();
    let streams = Streams {
        rt: &rt,
        errors: &rt.stderr(),
        program: b"radvoinis-histories",
    };
    if streams.told_usage(
        b"usage: radvoinis-histories\n\
          Lists every legal history of at most three updates over two states, with the\n\
          status of each state after it; at the end, how many there are. It reads no input\n\
          and takes no arguments.\n",
        words,
    ) {
        return;
    }
    write_histories(&streams, &mut [0; ROOM]);
}

// The text is written at once, as the last of a program that reads nothing.
fn write_histories<R: Input + Print, E: Print>(streams: &Streams<R, E>, output: &mut [u8]) -> Served
    requires { enumeration_room ≤ length output.old }
    ensures { take (length enumeration_text) output.new ≡ enumeration_text }
{
    let end = enumeration::enumerate(output);
    streams.serve(Task::End, end, 0, &mut [0; 1], output)
}

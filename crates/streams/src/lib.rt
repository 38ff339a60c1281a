// What a program does between two calls that list or draw: it reads a piece of its standard input, or writes to its standard output. Before the first it looks at its arguments.
#![tactic(auto)]

ghost use Rattle.std.specs.Prelude.{◌≡◌, true, ◌↔◌, ◌≤◌, [], ltb, length, codes};
ghost use Rattle.reader.specs.declared.task.Task.TheVariants.{End};
ghost use Rattle.tables.specs.Lending.{contents, StillLent};
ghost use Rattle.streams.specs.declared.Served.{Served};
ghost use Rattle.streams.specs.Driving.{Standing};
ghost use Rattle.streams.specs.Serving.{Serves};

use reader::{Drive, Task};
use std::io::Read;
use std::rt::Env;
use tables::LentTables;

// What came of a task, by the cases that `Serves` and the contract of `is_over` name.
#[derive(Clone, Copy)]
pub enum Served {
    // So many bytes of the input buffer are the piece to call with.
    Piece(usize),
    // The last text was written.
    Over,
    // A text could not be written. Standard error says so.
    Failed,
}

impl Served {
    pub fn is_over(self) -> bool
        ensures { (result ≡ true) ↔ (self ≡ Served.Over) }
    {
        matches!(self, Served::Over)
    }
}

// A program's standard streams, its arguments, and its name for what it says.
#[derive(Drop)]
pub struct Streams<'a, R, E> {
    pub rt: &'a R,
    pub errors: &'a E,
    pub program: &'a [u8],
}

impl<R: Env + Print, E: Print> Streams<'_, R, E> {
    // Tells the usage where the command line has more words than the program's name, since a program takes no arguments, and answers whether it did. It goes to standard output where it is asked for, by `--help` alone, else to standard error.
    pub fn told_usage(&self, usage: &[u8], words: usize) -> bool
        ensures { result ≡ ltb 1 words }
    {
        if words < 2 {
            return false;
        }
        if words == 2 && self.asks_for_help() {
            self.write_text(usage);
        } else {
            // Where standard error cannot be written there is nobody left to tell.
            let _ = self.errors.write_all(usage);
        }
        true
    }

    // Whether the first argument is `--help`.
    fn asks_for_help(&self) -> bool {
        let mut word = [0; 6];
        matches!(self.rt.arg(1, &mut word), Ok(6)) && is_help(word)
    }
}

fn is_help(word: [u8; 6]) -> bool
    ensures { (result ≡ true) ↔ (word ≡ codes "--help") }
{
    word == *b"--help"
}

impl<R: Input + Print, E: Print> Streams<'_, R, E> {
    // Does a task. `count` is the length of the piece at hand, `end` that of the text in the output, which no caller owes to be within it. A read that fails counts as the end of the input, and standard error says so. The task is a value that a library answers, which has no streams to close over, and `Serves` says what comes of each.
    pub fn serve(
        &self,
        task: Task,
        end: usize,
        count: usize,
        input: &mut [u8],
        output: &[u8],
    ) -> Served
        ensures { Serves task count input.old input.new result }
    {
        let text = &output[..end.min(output.len())];
        match task {
            Task::Read => Served::Piece(self.read_piece(input)),
            Task::Write if self.write_text(text) => Served::Piece(count),
            Task::End if self.write_text(text) => Served::Over,
            _ => Served::Failed,
        }
    }

    // Does what is asked for, turn by turn, up to the last text, and answers whether that was written. Nothing says that an input ends, so the turns are counted, up to a number that no run reaches.
    pub fn drive<D: Drive>(
        &self,
        work: &mut D,
        input: &mut [u8],
        output: &mut [u8],
        tables: &mut LentTables,
    ) -> bool
        requires { D.stands [] [] work.old [] output.old (contents tables.old) }
        ensures still_lent { StillLent tables.old tables.new }
        ensures over { result ≡ true → D.task work.new ≡ End }
        ensures stands { Standing D.stands work.new output.new (contents tables.new) }
    {
        let mut count = 0;
        for _ in 0..u64::MAX {
            let served = self.serve(work.task(), work.end(), count, input, output);
            let Served::Piece(len) = served else {
                return served.is_over();
            };
            work.go_on(&input[..len], output, tables);
            count = len;
        }
        false
    }

    // One call reads a piece, so that what a terminal or a pipe has is served at once.
    fn read_piece(&self, input: &mut [u8]) -> usize
        ensures { result ≤ length input.new }
    {
        let Ok(count) = self.rt.reader().read(input) else {
            self.say(b": cannot read standard input\n");
            return 0;
        };
        count
    }
}

impl<R: Print, E: Print> Streams<'_, R, E> {
    // Writes a text to standard output, and answers whether that could be done.
    fn write_text(&self, text: &[u8]) -> bool {
        let written = self.rt.write_all(text).is_ok();
        if !written {
            self.say(b": cannot write standard output\n");
        }
        written
    }
}

impl<R, E: Print> Streams<'_, R, E> {
    // Where standard error cannot be written there is nobody left to tell.
    fn say(&self, what: &[u8]) {
        let _ = self.errors.write_all(self.program);
        let _ = self.errors.write_all(what);
    }
}

// The drawing program: reads a record on standard input, and writes the picture of where it ends to standard output. What is read and written next, and when it is over, the library decides.
#![tactic(auto)]

ghost use Rattle.std.specs.Prelude.{◌≡◌, ◌≤◌, length};
ghost use Rattle.std.proofs.Math.Option.{none};
ghost use Rattle.tables.specs.Lending.{contents, StillLent};
ghost use Rattle.reader.specs.Opening.{open_refusal};
ghost use Rattle.reader.specs.Reading.{record_limit};
ghost use Rattle.picture.specs.Picture.{picture_room};
ghost use Rattle.draw.specs.Ending.{EndsDrawing};

use picture::{Drawer, PICTURE_ROOM};
use reader::RECORD_LIMIT;
use std::env::FillError;
use std::rt::Env;
use streams::Streams;
use tables::{LentTables, MAX_STATES, MAX_VISITED};

// The bytes of the input that are read at once.
const INPUT: usize = 65536;

// Where a drawing ended, and whether its last text was written. `EndsDrawing` speaks of both.
#[derive(Clone, Copy)]
struct DrawingEnd {
    drawer: Drawer,
    over: bool,
}

fn main(rt: HostRuntime) {
    // Counted by their bytes, since a word need not be text. Each program counts by itself: `told_usage` is handed the number, of which its promise speaks, and a public function that counts would need a contract, which could not say what it counts.
    let words = (0..usize::MAX)
        .take_while(|&i| !matches!(rt.arg(i, &mut [0u8; 1]), Err(FillError::NotPresent)))
        .count();
    let streams = Streams {
        rt: &rt,
        errors: &rt.stderr(),
        program: b"radvoinis-draw",
    };
    if streams.told_usage(
        b"usage: radvoinis-draw <RECORD\n\
          Reads a record of updates and writes where it ends as a Graphviz graph: each\n\
          state by its verdict, a terminal one with a double border, each accepted step\n\
          with its key. It takes no arguments. radvoinis-draw <RECORD | dot -Tpng makes\n\
          an image.\n",
        words,
    ) {
        return;
    }
    draw_record(&streams);
}

// The arrays are this function's own: one function for both programs would take what to do with them as a closure, with clauses for it.
#[tactic(auto, unfolding(tables::specs::Tables::visited_length))]
fn draw_record<R: Input + Print, E: Print>(streams: &Streams<R, E>) {
    draw_input(
        streams,
        &mut [0; INPUT],
        &mut [0; PICTURE_ROOM],
        &mut LentTables {
            status: &mut [0; MAX_STATES],
            marks: &mut [0; MAX_STATES],
            from: &mut [0; RECORD_LIMIT],
            to: &mut [0; RECORD_LIMIT],
            key: &mut [0; RECORD_LIMIT],
            successor: &mut [0; MAX_STATES],
            news: &mut [0; MAX_STATES],
            in_head: &mut [0; MAX_STATES],
            out_head: &mut [0; MAX_STATES],
            queue: &mut [0; MAX_STATES],
            visited: &mut [0; MAX_VISITED],
            in_next: &mut [0; RECORD_LIMIT],
            out_next: &mut [0; RECORD_LIMIT],
        },
    );
}

// Draws the input, read to its end. Like `list_input` of the listing program in form alone: what is begun, what that asks for and what is promised of it (`EndsDrawing`) are its own, and what both do is `drive`.
fn draw_input<R: Input + Print, E: Print>(
    streams: &Streams<R, E>,
    input: &mut [u8],
    output: &mut [u8],
    tables: &mut LentTables,
) -> DrawingEnd
    requires room { picture_room ≤ length output.old }
    requires opens { open_refusal record_limit (contents tables.old) ≡ none }
    ensures still_lent { StillLent tables.old tables.new }
    ensures ends { EndsDrawing result output.new (contents tables.new) }
{
    let mut drawer = Drawer::begin(tables);
    let over = streams.drive(&mut drawer, input, output, tables);
    DrawingEnd { drawer, over }
}

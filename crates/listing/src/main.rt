// The listing program: reads a record on standard input, and writes its listing to standard output. What is read and written next, and when it is over, the library decides.
#![tactic(auto)]

ghost use Rattle.std.specs.Prelude.{◌≡◌, ◌≤◌, length};
ghost use Rattle.std.proofs.Math.Option.{none};
ghost use Rattle.tables.specs.Lending.{contents, StillLent};
ghost use Rattle.reader.specs.Opening.{open_refusal};
ghost use Rattle.reader.specs.Reading.{record_limit};
ghost use Rattle.report.specs.Lister.{lister_room};
ghost use Rattle.listing.specs.Ending.{EndsListing};

use reader::RECORD_LIMIT;
use report::Lister;
use std::env::FillError;
use std::rt::Env;
use streams::Streams;
use tables::{LentTables, MAX_STATES, MAX_VISITED};

// The bytes of the input that are read at once, and those of the output that are written at once.
const INPUT: usize = 65536;

const OUTPUT: usize = 131072;

// Where a listing ended, and whether its last text was written. `EndsListing` speaks of both.
#[derive(Clone, Copy)]
struct ListingEnd {
    lister: Lister,
    over: bool,
}

fn main(rt: HostRuntime) {
    // Counted by their bytes, since a word need not be text. Each program counts by itself: `told_usage` is handed the number, of which its promise speaks, and a public function that counts would need a contract, which could not say what it counts.
    let words = (0..usize::MAX)
        .take_while(|&i| !matches!(rt.arg(i, &mut [0u8; 1]), Err(FillError::NotPresent)))
        .count();
    let streams = Streams {
        rt: &rt,
        errors: &rt.stderr(),
        program: b"radvoinis-listing",
    };
    if streams.told_usage(
        b"usage: radvoinis-listing <RECORD\n\
          Reads a record of updates and lists, line by line, the states that an update\n\
          settles as live or dead and the numbers of refusals; at the end, how many states\n\
          have each status. It takes no arguments.\n",
        words,
    ) {
        return;
    }
    list_record(&streams);
}

// The arrays are this function's own: one function for both programs would take what to do with them as a closure, with clauses for it.
#[tactic(auto, unfolding(tables::specs::Tables::visited_length))]
fn list_record<R: Input + Print, E: Print>(streams: &Streams<R, E>) {
    list_input(
        streams,
        &mut [0; INPUT],
        &mut [0; OUTPUT],
        &mut LentTables {
            status: &mut [0; MAX_STATES],
            marks: &mut [0; MAX_STATES],
            from: &mut [0; RECORD_LIMIT],
            to: &mut [0; RECORD_LIMIT],
            key: &mut [0; RECORD_LIMIT],
            successor: &mut [0; MAX_STATES],
            news: &mut [0; MAX_STATES],
            in_head: &mut [0; MAX_STATES],
            out_head: &mut [0; MAX_STATES],
            queue: &mut [0; MAX_STATES],
            visited: &mut [0; MAX_VISITED],
            in_next: &mut [0; RECORD_LIMIT],
            out_next: &mut [0; RECORD_LIMIT],
        },
    );
}

// Lists the input to its end. Like `draw_input` of the drawing program in form alone: what is begun, what that asks for and what is promised of it (`EndsListing`) are its own, and what both do is `drive`.
fn list_input<R: Input + Print, E: Print>(
    streams: &Streams<R, E>,
    input: &mut [u8],
    output: &mut [u8],
    tables: &mut LentTables,
) -> ListingEnd
    requires room { lister_room ≤ length output.old }
    requires opens { open_refusal record_limit (contents tables.old) ≡ none }
    ensures still_lent { StillLent tables.old tables.new }
    ensures ends { EndsListing result output.new (contents tables.new) }
{
    let mut lister = Lister::begin(output, tables);
    let over = streams.drive(&mut lister, input, output, tables);
    ListingEnd { lister, over }
}

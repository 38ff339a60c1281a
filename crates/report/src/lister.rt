// A listing under way: the library decides what is read, what is written and when it is over, and a program hands the bytes on.
ghost use Rattle.std.specs.Prelude.{◌≡◌, ◌≤◌, length};
ghost use Rattle.tables.specs.Lending.{contents, StillLent};
ghost use Rattle.report.specs.Lister.{idle, resumed, AfterLines, BeginsListing, Lists};
ghost use Rattle.report.specs.Progress.{ListingProgress};

use crate::lines::LINE_ROOM;
use crate::text::{TOTALS_ROOM, put_header, put_totals};
use reader::{Drive, RECORD_LIMIT, Reader, Task};
use record::TextBuffer;
use tables::{LentTables, MAX_STATES};

// The output's least length: room for a line and the totals.
const LISTER_ROOM: usize = LINE_ROOM + TOTALS_ROOM;

// Where a listing stands: the reader, the index in the piece from which on it is to be read, the place after the text in the output, and what the caller is to do.
#[derive(Clone, Copy)]
pub struct Lister {
    pub reader: Reader,
    pub next: usize,
    pub end: usize,
    pub task: Task,
}

impl Lister {
    // Opens the tables for a listing, with the limit that it has, and writes its header. Tables or an output that are too short list nothing.
    pub fn begin(output: &mut [u8], tables: &mut LentTables) -> Lister
        ensures still_lent { StillLent tables.old tables.new }
        ensures begins { BeginsListing output.old (contents tables.old) result output.new (contents tables.new) }
    {
        if output.len() < LISTER_ROOM {
            return Lister::idle();
        }
        let Ok(engine) = reader::open(RECORD_LIMIT, tables) else {
            return Lister::idle();
        };
        let mut text = TextBuffer {
            buf: output,
            end: 0,
        };
        put_header(&mut text);
        Lister {
            reader: Reader::start(engine),
            next: 0,
            end: text.end,
            task: Task::Read,
        }
    }

    // The lister that lists nothing.
    fn idle() -> Lister
        ensures { result ≡ idle }
    {
        Lister {
            reader: Reader::idle(),
            next: 0,
            end: 0,
            task: Task::End,
        }
    }

    // Lists what of a piece of the input the output has room for, and, where the input has ended or reading has stopped, the totals.
    pub fn list(&mut self, piece: &[u8], output: &mut [u8], tables: &mut LentTables)
        ensures still_lent { StillLent tables.old tables.new }
        ensures lists { Lists self.old piece.now output.old (contents tables.old) self.new output.new (contents tables.new) }
    {
        self.resume(piece.len());
        if output.len().saturating_sub(self.end) < LISTER_ROOM {
            self.end = self.end.min(output.len());
            self.task = Task::Write;
            return;
        }
        let part = self.reader.part_of(piece);
        self.list_lines(part, output, tables);
        self.finish(part.len(), piece, output, tables);
    }

    // Goes on behind what the caller was to do, by the task that it was given, as `place_by` and `start_by` have it: a new piece is read from its start, and an output that was written out is filled from its front.
    fn resume(&mut self, len: usize)
        ensures { self.new ≡ resumed self.old len }
    {
        match self.task {
            Task::Read => self.next = 0,
            Task::Write => self.end = 0,
            Task::End => {}
        }
        self.next = self.next.min(len);
    }

    // What is to be done behind the lines of a part, `len` bytes long, of a piece. Where it is the last, the totals are written.
    fn finish(&mut self, len: usize, piece: &[u8], output: &mut [u8], tables: &LentTables)
        requires { self.old.end ≤ length output.old }
        ensures { AfterLines self.old len piece.now tables.now.status.now output.old self.new output.new }
    {
        let more = self.reader.wants_more(piece);
        if self.next < len {
            self.task = Task::Write;
        } else if more {
            self.task = Task::Read;
        } else if output.len() - self.end < TOTALS_ROOM {
            self.task = Task::Write;
        } else {
            let n = self.reader.engine.graph.n.min(MAX_STATES);
            let mut text = TextBuffer {
                buf: output,
                end: self.end,
            };
            put_totals(&mut text, n, tables.status);
            self.end = text.end;
            self.task = Task::End;
        }
    }
}

// What a program drives. What comes of a listing is its progress. Like the drawer's in form alone: each hands on to the calls of its own type, under a law of its own.
impl Drive for Lister {
    ghost task = { λ s. s.task };

    ghost end = { λ s. s.end };

    ghost stands = { λ got put s piece output t. ListingProgress got put s piece output t };

    fn task(&self) -> Task {
        self.task
    }

    fn end(&self) -> usize {
        self.end
    }

    fn go_on(&mut self, piece: &[u8], output: &mut [u8], tables: &mut LentTables) {
        self.list(piece, output, tables);
    }
}

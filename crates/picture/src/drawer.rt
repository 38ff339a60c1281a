// A drawing under way: the library decides what is read, when it is over and what is written, and a program hands the bytes on.
ghost use Rattle.std.specs.Prelude.{◌≡◌, ◌≤◌, ◌+◌, length};
ghost use Rattle.tables.specs.Lending.{contents, StillLent};
ghost use Rattle.record.specs.Putting.{Puts};
ghost use Rattle.picture.specs.Picture.{picture_room};
ghost use Rattle.picture.specs.Drawer.{drawn_steps, picture_by, BeginsDrawing, Draws};
ghost use Rattle.picture.specs.Driving.{DrawingStands};

use crate::shown::Shown;
use crate::text::{PICTURE_ROOM, put_picture};
use reader::{Drive, RECORD_LIMIT, Reader, Task, Until};
use record::TextBuffer;
use tables::{LentTables, MAX_STATES, MAX_STEPS};

// Where a drawing stands: the reader, the place after the text in the output, and what the caller is to do.
#[derive(Clone, Copy)]
pub struct Drawer {
    pub reader: Reader,
    pub end: usize,
    pub task: Task,
}

impl Drawer {
    // Opens the tables for a drawing, with the limit that it has. Tables that are too short draw nothing.
    pub fn begin(tables: &mut LentTables) -> Drawer
        ensures still_lent { StillLent tables.old tables.new }
        ensures begins { BeginsDrawing (contents tables.old) result (contents tables.new) }
    {
        match reader::open(RECORD_LIMIT, tables) {
            Ok(engine) => Drawer {
                reader: Reader::start(engine),
                end: 0,
                task: Task::Read,
            },
            Err(_) => Drawer {
                reader: Reader::idle(),
                end: 0,
                task: Task::End,
            },
        }
    }

    // Reads the lines of a piece of the input and, where the input has ended or reading has stopped, draws. An output that is too short gets nothing.
    pub fn draw(&mut self, piece: &[u8], output: &mut [u8], tables: &mut LentTables)
        ensures still_lent { StillLent tables.old tables.new }
        ensures draws { Draws self.old piece.now output.old (contents tables.old) self.new output.new (contents tables.new) }
    {
        self.end = 0;
        if output.len() < PICTURE_ROOM {
            self.task = Task::End;
            return;
        }
        let part = self.reader.part_of(piece);
        self.reader.advance(part, 0, Until::End, tables);
        let more = self.reader.wants_more(piece);
        if more {
            self.task = Task::Read;
        } else {
            let mut text = TextBuffer {
                buf: output,
                end: 0,
            };
            self.put_tables(&mut text, tables);
            self.end = text.end;
            self.task = Task::End;
        }
    }

    // Puts the picture of the tables.
    fn put_tables(&self, text: &mut TextBuffer, tables: &LentTables)
        requires { text.old.end + picture_room ≤ length text.old.buf.now }
        ensures { Puts (picture_by self.now.reader (contents tables.now)) text.old text.new }
    {
        let graph = self.reader.engine.graph;
        put_picture(
            text,
            Shown {
                n: graph.n.min(MAX_STATES),
                steps: drawn_steps(graph.steps, tables),
                status: tables.status,
                marks: tables.marks,
                from: tables.from,
                to: tables.to,
                key: tables.key,
                successor: tables.successor,
            },
        );
    }
}

// What a program drives. What comes of a drawing is its progress, where the output has room for a picture. Like the lister's in form alone: each hands on to the calls of its own type, under a law of its own.
impl Drive for Drawer {
    ghost task = { λ s. s.task };

    ghost end = { λ s. s.end };

    ghost stands = { λ got put s piece output t. DrawingStands got s piece output t };

    fn task(&self) -> Task {
        self.task
    }

    fn end(&self) -> usize {
        self.end
    }

    fn go_on(&mut self, piece: &[u8], output: &mut [u8], tables: &mut LentTables) {
        self.draw(piece, output, tables);
    }
}

// How many steps are drawn: those counted, where the tables have so many.
fn drawn_steps(steps: usize, tables: &LentTables) -> usize
    ensures { result ≡ drawn_steps steps (length tables.now.from.now) (length tables.now.to.now) (length tables.now.key.now) }
{
    let listed = steps <= MAX_STEPS
        && steps <= tables.from.len()
        && steps <= tables.to.len()
        && steps <= tables.key.len();
    if listed { steps } else { 0 }
}

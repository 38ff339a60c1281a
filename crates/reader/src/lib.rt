// The reader: makes the lent tables fresh, and applies the updates of a record line by line. The record comes in parts of any length, or whole.
#![tactic(auto)]

ghost use Rattle.std.specs.Prelude.{◌≡◌};
ghost use Rattle.tables.specs.Lending.{contents, StillLent};
ghost use Rattle.record.specs.Splitting.{started};
ghost use Rattle.reader.specs.Reading.{Reads, refused_line};

mod drive;
mod driver;
mod pieces;
mod start;
mod task;

pub use drive::Drive;
pub use driver::{LineAnswer, Turn, Until};
use engine::Engine;
use record::Splitter;
pub use start::open;
use tables::{LentTables, Refusal};
pub use task::{Task, piece_or};

// "The listing program and the C call use limit 2,048."
pub const RECORD_LIMIT: usize = 2048;

// The reader's state: where it stands in the record, and the engine's state value.
#[derive(Clone, Copy)]
pub struct Reader {
    pub splitter: Splitter,
    pub engine: Engine,
}

// A line that is refused, and why.
#[derive(Clone, Copy)]
pub struct RefusedLine {
    pub line: usize,
    pub refusal: Refusal,
}

// What a whole record comes to: the state value after its last line, and its first refusal, if there is one.
#[derive(Clone, Copy)]
pub struct RecordRead {
    pub engine: Engine,
    pub refused: Option<RefusedLine>,
}

impl Reader {
    // At the start of a record.
    pub fn start(engine: Engine) -> Reader
        ensures splitter { result.splitter ≡ started }
        ensures engine { result.engine ≡ engine }
    {
        Reader {
            splitter: Splitter::start(),
            engine,
        }
    }

    // Whether reading has stopped, at a 10, a 12 or a 17.
    pub fn is_over(self) -> bool
        ensures { result ≡ self.splitter.stopped }
    {
        self.splitter.stopped
    }
}

// Reads a whole record, of any bytes, with a step limit: tests 2 and 3, makes the tables fresh, and applies each line. n is the record's count, and 2,048 where it gives none.
pub fn read(limit: usize, bytes: &[u8], tables: &mut LentTables) -> Result<RecordRead, Refusal>
    ensures still_lent { StillLent tables.old tables.new }
    ensures reads { Reads limit bytes.now (contents tables.old) (contents tables.new) result }
{
    let mut reader = Reader::start(open(limit, tables)?);
    let first = reader.advance(bytes, 0, Until::Refusal, tables);
    reader.advance(bytes, first.next, Until::End, tables);
    let newlines = reader.part_of(&[]);
    let last = reader.advance(newlines, 0, Until::Refusal, tables);
    Ok(RecordRead {
        engine: reader.engine,
        refused: refused_line(first.answer).or(refused_line(last.answer)),
    })
}

fn refused_line(answer: Option<LineAnswer>) -> Option<RefusedLine>
    ensures { result ≡ refused_line answer }
{
    match answer {
        Some(
            LineAnswer {
                line,
                outcome: Err(refusal),
            },
        ) => Some(RefusedLine { line, refusal }),
        _ => None,
    }
}

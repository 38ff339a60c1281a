// The lines of a part of a record: each is read and applied, and its text put behind what stands in the buffer.
ghost use Rattle.std.specs.Prelude.{◌≤◌, ◌+◌, length};
ghost use Rattle.tables.specs.Lending.{contents, StillLent};
ghost use Rattle.record.specs.Putting.{Puts};
ghost use Rattle.reader.specs.Advancing.{BoundedBy};
ghost use Rattle.report.specs.Printing.{line_room, told_text, Lines};

use crate::lister::Lister;
use crate::text::{put_news, put_refusal};
use reader::{LineAnswer, Until};
use record::TextBuffer;
use tables::LentTables;

// The room that is to be left in the buffer for a line.
pub const LINE_ROOM: usize = 34816;

impl Lister {
    // Lists the lines of a part from where it stands on, up to its end or until the buffer has no room for a line. How far each turn moves on is the reader's answer, so that no range and no iterator has its steps.
    pub(crate) fn list_lines(&mut self, part: &[u8], buf: &mut [u8], tables: &mut LentTables)
        requires index { self.old.next ≤ length part.now }
        requires at { self.old.end ≤ length buf.old }
        ensures still_lent { StillLent tables.old tables.new }
        ensures lines { Lines self.old.reader.splitter part.now self.old.next self.old.reader.engine.graph (contents tables.old) self.new.reader.splitter self.new.next self.new.reader.engine.graph (contents tables.new) self.old.end buf.old buf.new self.new.end }
    {
        let mut text = TextBuffer { buf, end: self.end };
        while self.next < part.len() && LINE_ROOM <= text.buf.len() - text.end {
            let at = self.next;
            let turn = self.reader.advance(part, at, Until::News, tables);
            self.next = turn.next;
            if let Some(answer) = turn.answer {
                put_answer(&mut text, answer, tables);
            }
        }
        self.end = text.end;
    }
}

// The text of what came of a line, by the tables after it.
fn put_answer(text: &mut TextBuffer, answer: LineAnswer, tables: &LentTables)
    requires bounded { BoundedBy answer.line answer.outcome tables.now.news.now }
    requires room { text.old.end + line_room ≤ length text.old.buf.now }
    ensures puts { Puts (told_text answer.line answer.outcome tables.now.news.now tables.now.status.now) text.old text.new }
    ensures within { text.new.end ≤ text.old.end + line_room }
{
    let line = answer.line;
    match answer.outcome {
        Ok(count) => put_news(text, line, &tables.news[..count], tables.status),
        Err(refusal) => put_refusal(text, line, u8::from(refusal)),
    }
}

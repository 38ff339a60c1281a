// The bytes of a record, put line by line behind what stands in the buffer: each line's writer is lent the rest of it.
ghost use Rattle.std.specs.Prelude.{◌≤◌, ◌+◌, length};
ghost use Rattle.gid.specs.declared.Update.{Update};
ghost use Rattle.record.specs.Putting.{Puts};
ghost use Rattle.record.specs.Text.{Wrote};
ghost use Rattle.writer.specs.Order.{marked_lines, line_bytes, bytes_of, head_bytes};
ghost use Rattle.writer.specs.Sizing.{mark_line, listed_lines, source_record};

use crate::marking::LineMark;
use crate::source::Source;
use gid::Update;
use record::TextBuffer;

// A line's writer: puts an update's line at the front of what it is lent, and answers its length.
fn write_line(buf: &mut [u8], update: Update) -> usize
    requires { length (line_bytes update) ≤ length buf.old }
    ensures { Wrote (line_bytes update) buf.old buf.new result }
{
    let mut line = TextBuffer { buf, end: 0 };
    line.put_update(update);
    line.end
}

// An update's line: its writer is lent the rest of the buffer.
fn put_line(text: &mut TextBuffer, update: Update)
    requires { text.old.end + length (line_bytes update) ≤ length text.old.buf.now }
    ensures { Puts (line_bytes update) text.old text.new }
{
    text.end += write_line(&mut text.buf[text.end..], update);
}

// A state's line, where it has one.
#[tactic(auto, using(crate::proofs::Bytes::line_length, crate::proofs::Bytes::line_size, crate::proofs::Bytes::no_line, record::proofs::Putting::puts_none))]
fn put_marked(text: &mut TextBuffer, mark: LineMark, byte: u8, state: usize)
    requires { text.old.end + length (bytes_of (mark_line mark byte state)) ≤ length text.old.buf.now }
    ensures { Puts (bytes_of (mark_line mark byte state)) text.old text.new }
{
    if mark.is_set(byte) {
        put_line(text, mark.update(state));
    }
}

// "by rising state". A loop by itself beside that of the steps: a state may have no line, so that one loop for both would take each line as an `Option`.
#[tactic(auto, using(crate::proofs::Bytes::order_none, crate::proofs::Bytes::marks_room, record::proofs::Putting::puts_none))]
fn put_marks(text: &mut TextBuffer, mark: LineMark, marks: &[u8])
    requires { text.old.end + length (bytes_of (marked_lines mark (length marks.now) marks.now)) ≤ length text.old.buf.now }
    ensures { Puts (bytes_of (marked_lines mark (length marks.now) marks.now)) text.old text.new }
{
    for (state, &byte) in marks.iter().enumerate() {
        put_marked(text, mark, byte, state);
    }
}

// "steps in list order"
#[tactic(auto, using(crate::proofs::Bytes::line_length, crate::proofs::Bytes::order_none, crate::proofs::Bytes::steps_room, record::proofs::Putting::puts_none))]
fn put_steps(text: &mut TextBuffer, source: Source)
    requires { text.old.end + length (bytes_of (listed_lines source)) ≤ length text.old.buf.now }
    ensures { Puts (bytes_of (listed_lines source.entry)) text.old text.new }
{
    for p in 0..source.from.len() {
        put_line(text, source.step(p));
    }
}

// "the writer always puts them, with its n": the line `states`, the count, and the names line.
fn put_head(text: &mut TextBuffer, n: usize)
    requires { text.old.end + length (head_bytes n) ≤ length text.old.buf.now }
    ensures { Puts (head_bytes n) text.old text.new }
{
    text.put_bytes(b"states\n");
    text.put_number(n);
    text.put_bytes(b"\nkind from to key\n");
}

// The head of the record, then "T lines by rising state, steps in list order, C lines by rising state"
#[tactic(auto, using(crate::proofs::Bytes::source_size, crate::proofs::Bytes::record_put))]
pub fn put_record(text: &mut TextBuffer, source: Source)
    requires { text.old.end + length (source_record source) ≤ length text.old.buf.now }
    ensures { Puts (source_record source.entry) text.old text.new }
{
    put_head(text, source.marks.len());
    put_marks(text, LineMark::Terminal, source.marks);
    put_steps(text, source);
    put_marks(text, LineMark::Close, source.marks);
}

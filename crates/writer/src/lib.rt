// The record writer: turns tables into a record, in the caller's buffer from a starting place in its middle.
#![tactic(auto)]

ghost use Rattle.std.specs.Prelude.{◌≡◌};
ghost use Rattle.tables.specs.Tables.{enough};
ghost use Rattle.writer.specs.Answering.{writer_needs, Writes};

mod filling;
mod marking;
mod sizes;
mod source;

use filling::put_record;
use record::TextBuffer;
use sizes::record_size;
use source::Source;
use tables::{Graph, Refusal};

// "It tests 1 to 4, then 13": nothing is written before the tests. It changes no table. The answer is the place after the last byte. The tables are lent one by one, and the buffer with the place: README.md names the call, and `Writes` speaks of both.
pub fn write(
    graph: Graph,
    marks: &[u8],
    from: &[u16],
    to: &[u16],
    key: &[u8],
    buf: &mut [u8],
    at: usize,
) -> Result<usize, Refusal>
    ensures { Writes graph marks.now from.now to.now key.now buf.old at buf.new result }
{
    graph.lent(all_long(graph, marks.len(), from.len(), to.len(), key.len()))?;
    let source = Source {
        marks: &marks[..graph.n],
        from: &from[..graph.steps],
        to: &to[..graph.steps],
        key: &key[..graph.steps],
    };
    if buf.len() < at || buf.len() - at < record_size(source) {
        return Err(Refusal::ShortBuffer);
    }
    let mut text = TextBuffer { buf, end: at };
    put_record(&mut text, source);
    Ok(text.end)
}

// Whether the four tables are long enough.
fn all_long(graph: Graph, marks: usize, from: usize, to: usize, key: usize) -> bool
    ensures { result ≡ enough (writer_needs graph marks from to key) }
{
    graph.n <= marks && graph.limit <= from && graph.limit <= to && graph.limit <= key
}

// The picture of some tables: a Graphviz graph with a line for each state that has a verdict and for each listed step, put behind what stands in the buffer.
ghost use Rattle.std.specs.Prelude.{◌≡◌, ◌≤◌, ◌+◌, ◌*◌, length, get_or};
ghost use Rattle.gid.specs.Successors.{no_successor};
ghost use Rattle.tables.specs.Marks.{has_terminal};
ghost use Rattle.record.specs.Putting.{Puts};
ghost use Rattle.picture.specs.Picture.{line, node, state_text, step_text, picture_room};
ghost use Rattle.picture.specs.Shown.{state_lines, step_lines, shown_picture, step_room};

use crate::shown::Shown;
use record::TextBuffer;
use tables::{DEAD, LIVE, Mark, NO_SUCCESSOR, OPEN, UNKNOWN, status_of};

// The room that is to be left in the buffer for a picture.
pub const PICTURE_ROOM: usize = 557056;

// The whole picture, of tables with any contents.
#[tactic(auto, using(crate::proofs::Drawing::shown_room))]
pub fn put_picture(text: &mut TextBuffer, shown: Shown)
    requires { text.old.end + picture_room ≤ length text.old.buf.now }
    ensures { Puts (shown_picture shown.entry) text.old text.new }
{
    text.put_bytes(b"digraph verdicts {\n  rankdir=LR;\n  node [style=filled];\n");
    put_states(text, shown);
    put_steps(text, shown);
    text.put_bytes(b"}\n");
}

// The lines of the states, by rising state.
fn put_states(text: &mut TextBuffer, shown: Shown)
    requires { text.old.end + length (state_lines shown) ≤ length text.old.buf.now }
    ensures { Puts (state_lines shown.entry) text.old text.new }
{
    for s in 0..shown.n {
        put_state(
            text,
            s,
            status_of(shown.status, s),
            is_terminal(shown.marks, s),
        );
    }
}

// A state's line, where it has one.
fn put_state(text: &mut TextBuffer, state: usize, status: u8, terminal: bool)
    requires { text.old.end + length (state_text status terminal state) ≤ length text.old.buf.now }
    ensures { Puts (state_text status terminal state) text.old text.new }
{
    let look: &[u8] = match status {
        OPEN => b" open\", fillcolor=\"#ffffff\"",
        UNKNOWN => b" unknown\", fillcolor=\"#ffe08a\"",
        LIVE => b" live\", fillcolor=\"#a8dba0\"",
        DEAD => b" dead\", fillcolor=\"#f0a8a0\"",
        _ => return,
    };
    put_node(text, state, look, terminal);
}

// A state's line, with what stands behind the number in its label.
fn put_node(text: &mut TextBuffer, state: usize, look: &[u8], terminal: bool)
    requires { text.old.end + length (node state look.now terminal) ≤ length text.old.buf.now }
    ensures { Puts (node state look.now terminal) text.old text.new }
{
    put_line(text, state, b" [label=\"", state, look);
    let end: &[u8] = if terminal {
        b", peripheries=2];\n"
    } else {
        b"];\n"
    };
    text.put_bytes(end);
}

// The lines of the steps, in list order. Each is short, since what it is read of is 16 or 8 bits.
fn put_steps(text: &mut TextBuffer, shown: Shown)
    requires { text.old.end + step_room * shown.steps ≤ length text.old.buf.now }
    ensures puts { Puts (step_lines shown.entry) text.old text.new }
    ensures within { text.new.end ≤ text.old.end + step_room * shown.entry.steps }
{
    for p in 0..shown.steps {
        let source = usize::from(shown.from[p]);
        let target = usize::from(shown.to[p]);
        let bold = usize::from(successor_of(shown.successor, source)) == p;
        put_step(text, source, target, usize::from(shown.key[p]), bold);
    }
}

// A step's line, labelled with its key.
fn put_step(text: &mut TextBuffer, from: usize, to: usize, key: usize, bold: bool)
    requires { text.old.end + length (step_text from to key bold) ≤ length text.old.buf.now }
    ensures { Puts (step_text from to key bold) text.old text.new }
{
    put_line(text, from, b" -> ", to, b" [label=\"");
    text.put_number(key);
    let style: &[u8] = if bold {
        b"\", style=bold];\n"
    } else {
        b"\"];\n"
    };
    text.put_bytes(style);
}

// Two numbers on a line, with what stands between and behind them.
#[tactic(auto, using(crate::proofs::Drawing::line_length))]
fn put_line(text: &mut TextBuffer, a: usize, middle: &[u8], b: usize, ending: &[u8])
    requires { text.old.end + length (line a middle.now b ending.now) ≤ length text.old.buf.now }
    ensures { Puts (line a middle.now b ending.now) text.old text.new }
{
    text.put_bytes(b"  ");
    text.put_number(a);
    text.put_bytes(middle);
    text.put_number(b);
    text.put_bytes(ending);
}

// A state's successor entry; past the table's end 65,535, document 01's number for none. Not one function with `status_of`: the width and the entry for none differ. `steps_text` compares the entry with a step's index as it is.
fn successor_of(successor: &[u16], s: usize) -> u16
    ensures { result ≡ get_or successor.now s no_successor }
{
    successor.get(s).copied().unwrap_or(NO_SUCCESSOR)
}

// Whether a state is marked terminal. None is past the table's end.
fn is_terminal(marks: &[u8], s: usize) -> bool
    ensures { result ≡ has_terminal (get_or marks.now s 0) }
{
    Mark::Terminal.is_set(marks.get(s).copied().unwrap_or(0))
}

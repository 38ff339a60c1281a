// The length of a record, known before any byte is written.
ghost use Rattle.std.specs.Prelude.{◌≡◌, ◌≤◌, ◌+◌, ◌*◌, length};
ghost use Rattle.gid.specs.Refusals.{max_states};
ghost use Rattle.record.specs.Text.{decimal, max_value, Within};
ghost use Rattle.record.specs.declared.line.Form.TheVariants.{Keyed};
ghost use Rattle.writer.specs.Order.{marked_lines, line_bytes, bytes_of};
ghost use Rattle.writer.specs.Sizing.{mark_line, listed_lines, source_record};

use crate::marking::LineMark;
use crate::source::Source;
use gid::Update;

// How many digits a value has.
#[tactic(auto, using(crate::proofs::Bytes::one_digit, crate::proofs::Bytes::two_digits, crate::proofs::Bytes::three_digits, crate::proofs::Bytes::four_digits, crate::proofs::Bytes::five_digits))]
fn digits(value: usize) -> usize
    requires { value ≤ max_value }
    ensures right { result ≡ length (decimal value) }
    ensures bounded { result ≤ 5 }
{
    match value {
        0..=9 => 1,
        10..=99 => 2,
        100..=999 => 3,
        1000..=9999 => 4,
        _ => 5,
    }
}

// The length of a line, with its newline.
fn line_size(update: Update) -> usize
    requires { Within Keyed update }
    ensures { result ≡ length (line_bytes update) }
{
    match update {
        Update::Step { edge } => digits(edge.from) + digits(edge.to) + digits(edge.key) + 5,
        Update::Terminal { state } | Update::Close { state } => digits(state) + 7,
    }
}

// The length of a state's line, 0 where it has none.
#[tactic(auto, using(crate::proofs::Bytes::line_size, crate::proofs::Bytes::no_line))]
fn mark_size(mark: LineMark, byte: u8, state: usize) -> usize
    requires { state ≤ max_value }
    ensures { result ≡ length (bytes_of (mark_line mark byte state)) }
{
    if mark.is_set(byte) {
        line_size(mark.update(state))
    } else {
        0
    }
}

// A state may have no line, so that one loop for marks and steps would take each line as an `Option`.
#[tactic(auto, using(crate::proofs::Bytes::order_none, crate::proofs::Bytes::order_size, crate::proofs::Bytes::mark_bound))]
fn marks_size(mark: LineMark, marks: &[u8]) -> usize
    requires { length marks.now ≤ max_states }
    ensures right { result ≡ length (bytes_of (marked_lines mark (length marks.now) marks.now)) }
    ensures bounded { result ≤ 20 * length marks.now }
{
    let mut size = 0;
    for (state, &byte) in marks.iter().enumerate() {
        size += mark_size(mark, byte, state);
    }
    size
}

#[tactic(auto, using(crate::proofs::Bytes::bytes_one, crate::proofs::Bytes::order_none, crate::proofs::Bytes::order_size, crate::proofs::Bytes::line_bound))]
fn steps_size(source: Source) -> usize
    ensures right { result ≡ length (bytes_of (listed_lines source.entry)) }
    ensures bounded { result ≤ 20 * length source.entry.from.now }
{
    let mut size = 0;
    for p in 0..source.from.len() {
        size += line_size(source.step(p));
    }
    size
}

// The length of the record. Its head has 25 bytes and the count's digits.
#[tactic(auto, using(crate::proofs::Bytes::head_size, crate::proofs::Bytes::source_size))]
pub fn record_size(source: Source) -> usize
    ensures { result ≡ length (source_record source.entry) }
{
    let terminals = marks_size(LineMark::Terminal, source.marks);
    let steps = steps_size(source);
    let closes = marks_size(LineMark::Close, source.marks);
    25 + digits(source.marks.len()) + terminals + steps + closes
}

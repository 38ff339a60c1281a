// The listing's text: a line for each legal history in the order of ranks, and the count.
ghost use Rattle.std.specs.Prelude.{◌≡◌, true, [], ◌∷◌, ◌++◌, ◌+◌, ◌<◌, ◌≤◌, length};
ghost use Rattle.record.specs.declared.line.Form.TheVariants.{Keyed};
ghost use Rattle.record.specs.Text.{text};
ghost use Rattle.record.specs.Putting.{Puts};
ghost use Rattle.enumeration.specs.Ranking.{unranked, is_legal, rank_count};
ghost use Rattle.enumeration.specs.Lines.{comma_terminated, comma_separated, history_text, enumeration_room, Enumerates};
ghost use Rattle.enumeration.specs.Parts.{history_room, EnumeratesBelow};

use crate::ranks::{RANKS, is_legal, newest, older};
use crate::sending::statuses_after;
use gid::Update;
use record::TextBuffer;

// The output's least length: a line has at most 27 bytes.
pub const ROOM: usize = 16384;

// Lists every small history at the front of the output, and answers the length of the text. An output that is too short gets none, and the answer is the length of no text, 0, as `Enumerates` has it.
pub fn enumerate(output: &mut [u8]) -> usize
    ensures { Enumerates output.old output.new result }
{
    if output.len() < ROOM {
        return 0;
    }
    let mut lines = TextBuffer {
        buf: output,
        end: 0,
    };
    let count = enumerate_ranks(&mut lines);
    lines.put_number(count);
    lines.put_byte(b'\n');
    lines.end
}

// The lines of the legal histories. Answers how many there are.
fn enumerate_ranks(lines: &mut TextBuffer) -> usize
    requires { lines.old.end + enumeration_room ≤ length lines.old.buf.now }
    ensures { EnumeratesBelow rank_count lines.old lines.new result }
{
    let mut count = 0;
    for rank in 0..RANKS {
        if is_legal(rank) {
            put_history(lines, rank);
            count += 1;
        }
    }
    count
}

// The line of a legal history: its updates, a colon, and the digits of the two statuses.
fn put_history(line: &mut TextBuffer, rank: usize)
    requires in_range { rank < rank_count }
    requires legal { is_legal (unranked rank) ≡ true }
    requires room { line.old.end + history_room ≤ length line.old.buf.now }
    ensures puts { Puts (history_text (unranked rank)) line.old line.new }
    ensures within { line.new.end ≤ line.old.end + history_room }
{
    let [first, second] = statuses_after(rank);
    let digits = [b'0' + first, b'0' + second, b'\n'];
    put_separated(line, rank);
    line.put_bytes(&digits);
}

// The updates' lines, joined by commas, and a colon, which stands also where there is none: so it is no case of the recursion below.
#[tactic(auto, using(crate::proofs::Texts::separated_none, crate::proofs::Texts::separated_room))]
fn put_separated(line: &mut TextBuffer, rank: usize)
    requires { line.old.end + length (comma_separated (unranked rank)) < length line.old.buf.now }
    ensures { Puts (comma_separated (unranked rank) ++ (58 ∷ [])) line.old line.new }
{
    if rank == 0 {
        return line.put_byte(b':');
    }
    put_terminated(line, older(rank));
    put_ended(line, newest(rank), b':');
}

// The updates' lines, each with a comma behind it.
#[tactic(auto, using(crate::proofs::Texts::terminated_room))]
fn put_terminated(line: &mut TextBuffer, rank: usize)
    requires { line.old.end + length (comma_terminated (unranked rank)) ≤ length line.old.buf.now }
    ensures { Puts (comma_terminated (unranked rank)) line.old line.new }
{
    if rank == 0 {
        return;
    }
    put_terminated(line, older(rank));
    put_ended(line, newest(rank), b',');
}

// An update's line with another byte in the place of its newline.
fn put_ended(line: &mut TextBuffer, update: Update, last: u8)
    requires { line.old.end + length (text Keyed update) < length line.old.buf.now }
    ensures { Puts (text Keyed update ++ (last ∷ [])) line.old line.new }
{
    line.put_update(update);
    line.buf[line.end - 1] = last;
}

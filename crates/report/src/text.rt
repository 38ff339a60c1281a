// The text of printed lines, each put behind what stands in the buffer.
ghost use Rattle.std.specs.Prelude.{◌≤◌, ◌<◌, ◌+◌, ◌*◌, length, get_or};
ghost use Rattle.record.specs.Putting.{Puts};
ghost use Rattle.report.specs.Texts.{header, ending, row, refused_text, verdict_word, news_text};
ghost use Rattle.report.specs.Printing.{table_totals};

use record::TextBuffer;
use tables::{LIVE, status_of};
use totals::count;

// The room that the totals take.
pub const TOTALS_ROOM: usize = 80;

pub fn put_header(text: &mut TextBuffer)
    requires { text.old.end + length header ≤ length text.old.buf.now }
    ensures { Puts header text.old text.new }
{
    text.put_bytes(b"line verdict number\n");
}

// A refusal's line.
#[tactic(auto, using(crate::proofs::Placing::row_room))]
pub fn put_refusal(text: &mut TextBuffer, line: usize, number: u8)
    requires line { line < 100000 }
    requires room { text.old.end + 20 ≤ length text.old.buf.now }
    ensures puts { Puts (refused_text line number) text.old text.new }
    ensures within { text.new.end ≤ text.old.end + 20 }
{
    put_row(text, line, b" refused ", usize::from(number));
}

// A line for each state of the news, with its verdict by the status table.
#[tactic(auto, using(crate::proofs::Placing::news_fits, crate::proofs::Placing::news_room, record::proofs::Putting::puts_none), unfolding(crate::specs::Texts::news_text))]
pub fn put_news(text: &mut TextBuffer, line: usize, news: &[u16], status: &[u8])
    requires line { line < 100000 }
    requires room { text.old.end + 17 * length news.now ≤ length text.old.buf.now }
    ensures puts { Puts (news_text line (λ s. get_or status.now s 0) news.now) text.old text.new }
    ensures within { text.new.end ≤ text.old.end + 17 * length news.now }
{
    for &s in news {
        let state = usize::from(s);
        put_verdict(text, line, status_of(status, state), state);
    }
}

fn put_verdict(text: &mut TextBuffer, line: usize, status: u8, state: usize)
    requires { text.old.end + length (row line (verdict_word status) state) ≤ length text.old.buf.now }
    ensures { Puts (row line (verdict_word status) state) text.old text.new }
{
    let word = if status == LIVE { b" live " } else { b" dead " };
    put_row(text, line, word, state);
}

// The four lines of the totals, over the first n states.
#[tactic(auto, using(crate::proofs::Placing::totals_length, crate::proofs::Placing::totals_put))]
pub fn put_totals(text: &mut TextBuffer, n: usize, status: &[u8])
    requires { text.old.end + length (table_totals n status.now) ≤ length text.old.buf.now }
    ensures { Puts (table_totals n status.now) text.old text.new }
{
    let counts = count(n, status);
    put_ending(text, b"end open ", counts.open);
    put_ending(text, b"end unknown ", counts.unknown);
    put_ending(text, b"end live ", counts.live);
    put_ending(text, b"end dead ", counts.dead);
}

// A line number, a word and a number.
#[tactic(auto, using(crate::proofs::Placing::row_length, record::proofs::Putting::puts_then), unfolding(crate::specs::Texts::row))]
fn put_row(text: &mut TextBuffer, line: usize, word: &[u8], number: usize)
    requires { text.old.end + length (row line word.now number) ≤ length text.old.buf.now }
    ensures { Puts (row line word.now number) text.old text.new }
{
    text.put_number(line);
    put_ending(text, word, number);
}

// A word, a number and a newline.
#[tactic(auto, using(crate::proofs::Placing::ending_length, record::proofs::Putting::puts_then), unfolding(crate::specs::Texts::ending))]
fn put_ending(text: &mut TextBuffer, word: &[u8], number: usize)
    requires { text.old.end + length (ending word.now number) ≤ length text.old.buf.now }
    ensures { Puts (ending word.now number) text.old text.new }
{
    text.put_bytes(word);
    text.put_number(number);
    text.put_byte(b'\n');
}

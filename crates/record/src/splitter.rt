// The splitter: it is fed a record in parts of any length, and answers what each line is as the line ends.
ghost use Rattle.std.specs.Prelude.{◌≡◌, ◌≤◌, true, false, length};
ghost use Rattle.record.specs.Splitting.{at, fed, started, names_fed, after_names, count_fed, after_first, after_further, after_line, after_part, awaited, pending, last_newlines, item_of};
ghost use Rattle.record.specs.Buffer.{empty_line, line_count};
ghost use Rattle.record.specs.Items.{items, count_in};
ghost use Rattle.record.specs.Lines.{before};
ghost use Rattle.record.specs.Grammar.{count_of};

use crate::grammar::count_bytes;
use crate::line::{Filled, Form, Line};
use gid::Update;

pub const MAX_LINES: usize = 65535;

// "A line that has been read is kept as its line number with one of the three kinds of update."
#[derive(Clone, Copy)]
pub struct Numbered {
    pub line: usize,
    pub update: Update,
}

// What the bytes fed make known: an enum of its own, Nothing and refusals with the rest, since `count_in`, `item_number`, `item_line` and `told` say of each case what it comes to, and `further`, `from_names` and `count_items` which line is which.
#[derive(Clone, Copy)]
pub enum Item {
    // No line has ended, or reading has stopped.
    Nothing,
    Update(Numbered),
    // "11: a line is malformed", with its line number.
    Malformed(usize),
    // "10: the names line is not exact", with its line number: 1, or 3 behind a count.
    BadNames(usize),
    // "12: line 65,536 exists".
    TooMany,
    // The count of the record's states, at line 2.
    States(usize),
    // "17 as line 2": the count is missing or is none.
    BadCount,
}

// Where a line stands: in the head of a record, or behind it. What comes of a line goes by the phase, as `after_line` has it.
#[derive(Clone, Copy)]
pub enum Phase {
    // Line 1: `states`, or the names line.
    First,
    // Line 2, behind `states`: the count.
    Count,
    // Line 3, behind a count: the names line.
    Names,
    // Behind the names line, which gives the form.
    Further(Form),
}

#[derive(Clone, Copy)]
pub struct Splitter {
    // The line so far.
    pub line: Line,
    // Its number, from 1.
    pub number: usize,
    // Whether reading has stopped: a flag beside the phase, which stays. `after_line` and `awaited` ask it first, and what a listing and a drawing promise speaks of it.
    pub stopped: bool,
    // Where in the record it stands.
    pub phase: Phase,
}

// The splitter comes back beside what is known.
#[derive(Clone, Copy)]
struct Fed {
    pub splitter: Splitter,
    pub item: Item,
}

// The same, with the index up to which bytes were fed.
#[derive(Clone, Copy)]
pub struct Advanced {
    pub splitter: Splitter,
    pub item: Item,
    pub next: usize,
}

impl Fed {
    // The next line begins. This and `stop` differ in whether reading has stopped, which a caller says by name and not by a flag.
    fn next(number: usize, phase: Phase, item: Item) -> Fed
        ensures { result ≡ fed (at empty_line number false phase) item }
    {
        Fed {
            splitter: Splitter::begin(number, phase),
            item,
        }
    }

    // Reading stops.
    fn stop(number: usize, phase: Phase, item: Item) -> Fed
        ensures { result ≡ fed (at empty_line number true phase) item }
    {
        Fed {
            splitter: Splitter {
                stopped: true,
                ..Splitter::begin(number, phase)
            },
            item,
        }
    }
}

impl Splitter {
    pub fn start() -> Splitter
        ensures { result ≡ started }
    {
        Splitter::begin(1, Phase::First)
    }

    // A line begins.
    fn begin(number: usize, phase: Phase) -> Splitter
        ensures { result ≡ at empty_line number false phase }
    {
        Splitter {
            line: Line::empty(),
            number,
            stopped: false,
            phase,
        }
    }

    // Feeds the bytes of s from an index on, up to the end of a line or of s.
    #[tactic(auto, unfolding(crate::specs::Splitting::after_part))]
    pub fn feed_line(self, s: &[u8], at: usize) -> Advanced
        ensures { result ≡ after_part self s.now at }
    {
        let Filled { line, next } = self.line.filled(s, at);
        let splitter = Splitter { line, ..self };
        if next < s.len() {
            let Fed { splitter, item } = splitter.ended();
            return Advanced {
                splitter,
                item,
                next: next + 1,
            };
        }
        Advanced {
            splitter,
            item: Item::Nothing,
            next,
        }
    }

    // Whether the head of the record is not over: a line of it is still to end.
    #[tactic(auto, unfolding(crate::specs::Splitting::awaited))]
    fn awaits(self) -> bool
        ensures { result ≡ awaited self }
    {
        !self.stopped && !matches!(self.phase, Phase::Further(_))
    }

    // Whether a line is left that the end of the record ends: "A missing last newline makes no difference. Empty input lacks its names line."
    #[tactic(auto, unfolding(crate::specs::Splitting::pending))]
    fn pending(self) -> bool
        ensures { result ≡ pending self }
    {
        let begun = self.line.len != 0;
        begun || self.awaits()
    }

    // How many newlines the record lacks at its end: that of the last line, if one is left, and that of a line of the head which is missing behind it.
    #[tactic(auto, unfolding(crate::specs::Splitting::last_newlines))]
    pub fn lacking(self) -> usize
        ensures { result ≡ length (last_newlines self) }
    {
        if !self.pending() {
            0
        } else if self.leads_on() {
            2
        } else {
            1
        }
    }

    // Whether a line of the head comes behind this one: behind `states`, and behind a count. It is not asked by ending the line, which is done in one place, for speed.
    #[tactic(auto, using(crate::proofs::Splitting::stopped_leads, crate::proofs::Splitting::first_leads, crate::proofs::Splitting::count_leads, crate::proofs::Splitting::names_leads, crate::proofs::Splitting::further_leads))]
    fn leads_on(self) -> bool
        ensures { result ≡ awaited (after_line self).splitter }
    {
        if self.stopped {
            return false;
        }
        match self.phase {
            Phase::First => self.line.is_states(),
            Phase::Count => self.line.count().is_some(),
            Phase::Names | Phase::Further(_) => false,
        }
    }

    // The line has ended.
    #[tactic(auto, unfolding(crate::specs::Splitting::after_line, crate::specs::Splitting::in_phase))]
    fn ended(self) -> Fed
        ensures { result ≡ after_line self }
    {
        if self.stopped {
            return Fed {
                splitter: self,
                item: Item::Nothing,
            };
        }
        match self.phase {
            Phase::First => first_line(self.line),
            Phase::Count => count_line(self.line),
            Phase::Names => names_line(self.line, 3),
            Phase::Further(form) => further_line(self.line, self.number, form),
        }
    }
}

// "A record may now begin with a line `states`".
#[tactic(auto, unfolding(crate::specs::Splitting::after_first))]
fn first_line(line: Line) -> Fed
    ensures { result ≡ after_first line }
{
    if line.is_states() {
        Fed::next(2, Phase::Count, Item::Nothing)
    } else {
        names_line(line, 1)
    }
}

// Line 2, behind `states`: "a line with the count".
fn count_line(line: Line) -> Fed
    ensures { result ≡ count_fed (line_count line) }
{
    match line.count() {
        Some(states) => Fed::next(3, Phase::Names, Item::States(states)),
        None => Fed::stop(3, Phase::Names, Item::BadCount),
    }
}

// Line 1, or line 3 behind a count.
#[tactic(auto, unfolding(crate::specs::Splitting::after_names))]
fn names_line(line: Line, number: usize) -> Fed
    requires { number ≤ 3 }
    ensures { result ≡ after_names number line }
{
    if line.is_names(Form::Plain) {
        names_fed(number, Form::Plain)
    } else if line.is_names(Form::Keyed) {
        names_fed(number, Form::Keyed)
    } else {
        Fed::stop(number + 1, Phase::Names, Item::BadNames(number))
    }
}

// The names line has ended.
fn names_fed(number: usize, form: Form) -> Fed
    requires { number ≤ 3 }
    ensures { result ≡ names_fed number form }
{
    Fed::next(number + 1, Phase::Further(form), Item::Nothing)
}

#[tactic(auto, unfolding(crate::specs::Splitting::after_further))]
fn further_line(line: Line, number: usize, form: Form) -> Fed
    ensures { result ≡ after_further form line number }
{
    let phase = Phase::Further(form);
    if MAX_LINES < number {
        return Fed::stop(number, phase, Item::TooMany);
    }
    Fed::next(number + 1, phase, item_of(line.parse(form), number))
}

fn item_of(parsed: Option<Update>, number: usize) -> Item
    ensures { result ≡ item_of parsed number }
{
    match parsed {
        Some(update) => Item::Update(Numbered {
            line: number,
            update,
        }),
        None => Item::Malformed(number),
    }
}

// What the head of a record says of its states, from the record's bytes alone: a count, a 17, or nothing.
pub fn states_of(bytes: &[u8]) -> Item
    ensures { result ≡ count_in (items bytes.now) }
{
    let end = line_end(bytes);
    if &bytes[..end] != b"states".as_slice() {
        return Item::Nothing;
    }
    if end < bytes.len() {
        count_item(&bytes[end + 1..])
    } else {
        Item::BadCount
    }
}

// By the line at the front of the bytes behind `states`.
fn count_item(rest: &[u8]) -> Item
    ensures { result ≡ (count_fed (count_of (before rest.now))).item }
{
    let end = line_end(rest);
    match count_bytes(&rest[..end]) {
        Some(states) => Item::States(states),
        None => Item::BadCount,
    }
}

// How many bytes stand before the first newline.
fn line_end(s: &[u8]) -> usize
    ensures { result ≡ length (before s.now) }
{
    s.iter().position(|b| *b == b'\n').unwrap_or(s.len())
}

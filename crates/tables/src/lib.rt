// What the engine is handed, and what calls refuse: the state value, the caller's tables, the refusals with document 01's numbers, the mark bits, and the status question.
#![tactic(auto)]

ghost use Rattle.std.specs.Prelude.{◌≡◌, ◌≤◌, ◌<◌, length};
ghost use Rattle.tables.specs.Refused.{is_full, code, in_range, unclosed, lent_number, sent_number, place_number, status_outcome, status_answer};
ghost use Rattle.gid.specs.Updates.{source};
ghost use Rattle.gid.specs.Histories.{step_of};
ghost use Rattle.tables.specs.Tables.{nodes_of};
ghost use Rattle.tables.specs.Marks.{closes_again};
ghost use Rattle.tables.specs.Listing.{graph_after};

mod bitwise;
mod entries;
mod lengths;
mod lent;
mod marks;
mod refusal;
mod visits;

pub use bitwise::{has_bit, with_bit};
pub use entries::status_of;
use gid::{Edge, Update};
pub use lengths::Lengths;
pub use lent::LentTables;
pub use marks::Mark;
pub use refusal::Refusal;
pub use visits::{clear_visited, is_visited, set_visited, skip_unvisited, visited_len};

// "There are n states, numbered 0 to n−1, with n from 1 to 2,048."
pub const MAX_STATES: usize = 2048;
// How many entries the visited marks of so many states take.
pub const MAX_VISITED: usize = (MAX_STATES + 15) / 16;
// "The step limit is from 1 to 8,192."
pub const MAX_STEPS: usize = 8192;
// "Each step now carries a key, 0 to 31"
pub const MAX_KEY: usize = 31;
// "For every other state the entry is 65,535." An entry of the lent table, which C reads.
pub const NO_SUCCESSOR: u16 = 65535;

// "0 unseen, 1 open, 2 unknown, 3 live, 4 dead": entries of the lent tables, which C reads and which may hold any byte, and so no enum.
pub const UNSEEN: u8 = 0;

pub const OPEN: u8 = 1;

pub const UNKNOWN: u8 = 2;

pub const LIVE: u8 = 3;

pub const DEAD: u8 = 4;

// The small state value of document 01: it goes into each update and comes back.
#[derive(Clone, Copy)]
pub struct Graph {
    // The number of states.
    pub n: usize,
    // The step limit.
    pub limit: usize,
    // The number of steps that are listed.
    pub steps: usize,
}

impl Graph {
    // The first of the tests 1 to 4 that applies. `long`: each table that the call is lent is long enough.
    #[tactic(auto, unfolding(crate::specs::Refused::lent_number))]
    pub fn lent(self, long: bool) -> Result<(), Refusal>
        ensures { code result ≡ lent_number self long }
    {
        if self.n == 0 || MAX_STATES < self.n {
            return Err(Refusal::BadStates);
        }
        if self.limit == 0 || MAX_STEPS < self.limit {
            return Err(Refusal::BadLimit);
        }
        if !long {
            return Err(Refusal::ShortTable);
        }
        if self.limit < self.steps {
            return Err(Refusal::ExcessSteps);
        }
        Ok(())
    }

    // The nodes of a search: one for each state.
    pub fn nodes(self) -> usize
        ensures { result ≡ nodes_of self }
    {
        self.n
    }

    // Whether the step list has no free place.
    pub fn is_full(self) -> bool
        ensures { result ≡ is_full self }
    {
        self.steps == self.limit
    }

    // The first of the tests 5, 14 and 6 that applies to an update. No mark turns a close away.
    #[tactic(auto, unfolding(crate::specs::Refused::sent_number))]
    pub fn sent(self, update: Update, marks: &[u8]) -> Result<(), Refusal>
        requires { self.n ≤ length marks.now }
        ensures { code result ≡ sent_number self marks.now update }
    {
        match update {
            Update::Step { edge } => self.sent_step(edge, marks),
            Update::Terminal { state } => {
                self.in_range(state)?;
                unclosed(marks[state])
            }
            Update::Close { state } => self.in_range(state),
        }
    }

    #[tactic(auto, unfolding(crate::specs::Refused::sent_number))]
    fn sent_step(self, edge: Edge, marks: &[u8]) -> Result<(), Refusal>
        requires { self.n ≤ length marks.now }
        ensures { code result ≡ sent_number self marks.now (Update.Step edge) }
    {
        self.in_range(edge.from)?;
        self.in_range(edge.to)?;
        if MAX_KEY < edge.key {
            return Err(Refusal::BadKey);
        }
        unclosed(marks[edge.from])
    }

    // Test 5, of a state.
    fn in_range(self, state: usize) -> Result<(), Refusal>
        ensures { result ≡ in_range self state }
    {
        if self.n <= state {
            return Err(Refusal::OutOfRange);
        }
        Ok(())
    }

    // Test 9, of an update that is no repeat.
    #[tactic(auto, unfolding(crate::specs::Refused::place_number))]
    pub fn has_place(self, update: Update) -> Result<(), Refusal>
        ensures { code result ≡ place_number (is_full self) update }
    {
        match update {
            Update::Step { .. } if self.is_full() => Err(Refusal::ListFull),
            _ => Ok(()),
        }
    }

    // The state value after an update that is no repeat.
    pub fn after(self, update: Update) -> Graph
        requires { self.steps < 65536 }
        ensures { result ≡ graph_after self (step_of update) }
    {
        let places = usize::from(matches!(update, Update::Step { .. }));
        Graph {
            steps: self.steps + places,
            ..self
        }
    }

    // The status question: the tests 1 to 5, then the state's byte.
    #[tactic(auto, unfolding(crate::specs::Refused::status_answer, crate::specs::Refused::lent_number))]
    pub fn status(self, status: &[u8], state: usize) -> Result<u8, Refusal>
        ensures { status_outcome result ≡ status_answer self status.now state }
    {
        self.lent(self.nodes() <= status.len())?;
        self.in_range(state)?;
        Ok(status[state])
    }
}

// Test 6, of a state's marks.
fn unclosed(marks: u8) -> Result<(), Refusal>
    ensures { result ≡ unclosed marks }
{
    if Mark::Closed.is_set(marks) {
        return Err(Refusal::ClosedSource);
    }
    Ok(())
}

// Whether an update closes a state that is marked closed: it is accepted, and changes nothing.
pub fn closes_again(update: Update, marks: &[u8]) -> bool
    requires { source update < length marks.now }
    ensures { result ≡ closes_again update marks.now }
{
    match update {
        Update::Close { state } => Mark::Closed.is_set(marks[state]),
        _ => false,
    }
}

// What can be said of a state by its own entries.
ghost use Rattle.std.specs.Prelude.{◌≡◌, ◌↔◌, true, ◌≤◌, ◌<◌, length};
ghost use Rattle.tables.specs.Tables.{visited_length};
ghost use Rattle.audit.specs.Facts.{All, suits, mentioned, successor_fits, state_fits};

use super::stored::Stored;
use tables::{DEAD, LIVE, Mark, NO_SUCCESSOR, OPEN, UNKNOWN, UNSEEN, is_visited};

// Bytes of the lent marks, which may hold any sum, and so no enum: that of a state that is named, with no other mark, and of one that is closed besides.
const NAMED: u8 = 1;

const NAMED_CLOSED: u8 = 5;
// All marks.
const MOST: u8 = 7;

// Whether each state's entries fit each other.
#[tactic(auto, unfolding(crate::specs::Facts::state_fits, tables::specs::Tables::visited_length))]
pub fn states_fit(stored: Stored, visited: &[u16]) -> bool
    requires { visited_length stored.n ≤ length visited.now }
    ensures { (result ≡ true) ↔ All stored.entry.n (state_fits stored.entry.steps stored.entry.status.now stored.entry.marks.now stored.entry.from.now stored.entry.successor.now stored.entry.in_head.now stored.entry.out_head.now visited.now) }
{
    (0..stored.n).all(|s| {
        let status = stored.status[s];
        let mark = stored.marks[s];
        !is_visited(visited, s)
            && suits(status, mark)
            && mentioned(mark, stored.in_head[s], stored.out_head[s])
            && successor_fits(s, stored.steps, status, stored.successor[s], stored.from)
    })
}

// Whether a state with these marks can have this status. A state that is terminal or closed is named, and a terminal one is live.
#[tactic(auto, unfolding(crate::specs::Facts::suits))]
fn suits(status: u8, mark: u8) -> bool
    ensures { result ≡ suits status mark }
{
    match status {
        UNSEEN => mark == 0,
        OPEN => mark == NAMED,
        UNKNOWN | DEAD => mark == NAMED_CLOSED,
        LIVE => mark <= MOST && Mark::Named.is_set(mark),
        _ => false,
    }
}

// Whether, where the only mark is that the state is named, some listed step mentions it.
#[tactic(auto, unfolding(crate::specs::Facts::mentioned))]
fn mentioned(mark: u8, in_head: u16, out_head: u16) -> bool
    ensures { result ≡ mentioned mark in_head out_head }
{
    mark != NAMED || in_head != 0 || out_head != 0
}

// Whether the successor is a listed step out of s where s is unknown, and none elsewhere.
#[tactic(auto, unfolding(crate::specs::Facts::successor_fits))]
fn successor_fits(s: usize, steps: usize, status: u8, successor: u16, from: &[u16]) -> bool
    requires { steps ≤ length from.now }
    ensures { result ≡ successor_fits steps from.now s status successor }
{
    if status != UNKNOWN {
        return successor == NO_SUCCESSOR;
    }
    let p = usize::from(successor);
    p < steps && usize::from(from[p]) == s
}

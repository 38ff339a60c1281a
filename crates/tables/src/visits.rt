// The visited marks of a search, a bit for each node, read and written one by one here alone: that of the node s is bit s % 16 of the entry s / 16. Where none is to be left, a table is filled with 0.
// Each function asks that the node has a mark, and is lent the marks as a slice: docs/ARCHITECTURE.md names these calls, and the table check reads marks that no search has. `mark` and `unmark` say what setting and clearing are.
ghost use Rattle.std.specs.Prelude.{◌≡◌, ◌%◌, ◌<◌};
ghost use Rattle.tables.specs.Tables.{visited_length};
ghost use Rattle.tables.specs.Visits.{HasMark, marked, mark, unmark, NoneBetween};

use super::bitwise::{has_bit, with_bit, without_bit};

// How many entries the marks of some nodes take.
#[tactic(auto, unfolding(crate::specs::Tables::visited_length))]
pub fn visited_len(nodes: usize) -> usize
    ensures { result ≡ visited_length nodes }
{
    nodes / 16 + (nodes % 16 + 15) / 16
}

#[tactic(auto, unfolding(crate::specs::Visits::marked, crate::specs::Tables::visited_length))]
pub fn is_visited(visited: &[u16], s: usize) -> bool
    requires { HasMark visited.now s }
    ensures { result ≡ marked visited.now s }
{
    has_bit(visited[s / 16], bit_of(s))
}

#[tactic(auto, unfolding(crate::specs::Visits::mark, crate::specs::Tables::visited_length))]
pub fn set_visited(visited: &mut [u16], s: usize)
    requires { HasMark visited.old s }
    ensures { visited.new ≡ mark visited.old s }
{
    visited[s / 16] = with_bit(visited[s / 16], bit_of(s));
}

#[tactic(auto, unfolding(crate::specs::Visits::unmark, crate::specs::Tables::visited_length))]
pub fn clear_visited(visited: &mut [u16], s: usize)
    requires { HasMark visited.old s }
    ensures { visited.new ≡ unmark visited.old s }
{
    visited[s / 16] = without_bit(visited[s / 16], bit_of(s));
}

// A node behind s, with none visited between: the next one or, where no mark is set in the entry of s, the first of the next entry.
#[tactic(auto, using(crate::proofs::Marking::blank_between), unfolding(crate::specs::Tables::visited_length))]
pub fn skip_unvisited(visited: &[u16], s: usize) -> usize
    requires has_mark { HasMark visited.now s }
    requires s_fits { s < 65536 }
    ensures onward { s < result }
    ensures none_between { NoneBetween visited.now s result }
{
    if visited[s / 16] == 0 {
        return s / 16 * 16 + 16;
    }
    s + 1
}

// The bit of a node in its entry.
fn bit_of(s: usize) -> u8
    ensures { result ≡ s % 16 }
{
    // A cast: it is proved to fit, and `try_from` would bring an error that cannot happen.
    (s % 16) as u8
}

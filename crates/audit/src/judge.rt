// Whether tables that are long enough fit: states and steps by their entries, then the lists of steps, then that no two steps are
// equal, then what the statuses claim. The queue and the marks are lent by themselves down to where a search runs: the check of the lists writes the queue alone, as a table of its own.
ghost use Rattle.std.specs.Prelude.{◌≡◌, ◌↔◌, true, List, [], ℕ, ◌≤◌, length};
ghost use Rattle.tables.specs.Tables.{visited_length};
ghost use Rattle.audit.specs.Contents.{contents};
ghost use Rattle.audit.specs.Parts.{Below, EntriesFit, ListsJudged, Judged};

use super::claims::claims_fit;
use super::distinct::KeyedSteps;
use super::lists::list_fits;
use super::states::states_fit;
use super::steps::{keys_fit, steps_fit};
use super::stored::Stored;

pub fn judge(stored: Stored, queue: &mut [u16], visited: &mut [u16]) -> bool
    requires queue_in_bounds { stored.n ≤ length queue.old }
    requires visited_in_bounds { visited_length stored.n ≤ length visited.old }
    ensures { (news : List ℕ) → Judged stored.entry.n stored.entry.steps (contents stored.entry news queue.old visited.old) result queue.new visited.new }
{
    entries_fit(stored, visited) && lists_fit(stored, queue) && claims_fit(stored, queue, visited)
}

// Whether the entries of each state, each step and each key fit.
fn entries_fit(stored: Stored, visited: &[u16]) -> bool
    requires { visited_length stored.n ≤ length visited.now }
    ensures { (result ≡ true) ↔ EntriesFit stored.entry.n stored.entry.steps (contents stored.entry [] [] visited.now) }
{
    states_fit(stored, visited) && steps_fit(stored) && keys_fit(stored)
}

// Whether the lists of steps are right, and no two steps are equal.
fn lists_fit(stored: Stored, queue: &mut [u16]) -> bool
    requires queue_in_bounds { stored.n ≤ length queue.old }
    requires from_below { Below stored.n stored.steps stored.from.now }
    requires to_below { Below stored.n stored.steps stored.to.now }
    ensures { ListsJudged stored.entry.n stored.entry.steps (contents stored.entry [] queue.old []) queue.new result }
{
    let arcs = stored.both_ways();
    let keyed = KeyedSteps {
        arcs: arcs.into,
        key: stored.key,
    };
    list_fits(stored.to, arcs.into, queue)
        && list_fits(stored.from, arcs.out_of, queue)
        && keyed.steps_differ(queue)
}

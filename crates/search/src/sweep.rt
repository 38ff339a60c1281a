// Death: what keeps no way to an open node is dead.
ghost use Rattle.std.specs.Prelude.{◌≡◌, ◌≤◌, length};
ghost use Rattle.adjacency.specs.Adjacencies.{chains_of};
ghost use Rattle.search.specs.Spreading.{into, out_of, Queued};
ghost use Rattle.search.specs.Searches.{Sweeps};
ghost use Rattle.search.specs.Working.{SameWorklist, written};

use super::settle::settle;
use super::worklist::Worklist;
use adjacency::BothWays;
use tables::{DEAD, UNKNOWN};

// Visits the unknown nodes whose successors lead to the queued ones, releases those with another way to an open node, and settles the rest
// dead. Answers the number of news.
pub fn sweep(
    work: &mut Worklist,
    arcs: BothWays,
    status: &mut [u8],
    successor: &mut [u16],
    news: &mut [u16],
) -> usize
    requires same_nodes { work.old.n ≡ arcs.into.n }
    requires queued { Queued arcs.into.n work.old.visited.now work.old.queue.now work.old.span }
    requires status_in_bounds { arcs.into.n ≤ length status.old }
    requires successor_in_bounds { arcs.into.n ≤ length successor.old }
    requires news_in_bounds { arcs.into.n ≤ length news.old }
    ensures same { SameWorklist work.old work.new }
    ensures sweeps { Sweeps arcs.entry.into.n (into (chains_of arcs.entry.into)) (out_of (chains_of arcs.entry.out_of)) work.old.span (written status.entry.now successor.old news.old work.old) (written status.exit.now successor.new news.new work.new) result }
{
    work.spread(
        |y, p| status[y] == UNKNOWN && usize::from(successor[y]) == p,
        arcs.into,
    );
    work.escapes(arcs.out_of, status, successor);
    work.rescue(arcs.into, successor);
    settle(work.span, DEAD, status, successor, news, work.visited)
}

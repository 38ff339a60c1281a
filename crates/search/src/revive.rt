// Life: whatever leads to a live node is live.
ghost use Rattle.std.specs.Prelude.{◌≡◌, ◌≤◌, length};
ghost use Rattle.adjacency.specs.Adjacencies.{chains_of};
ghost use Rattle.search.specs.Spreading.{into, Queued};
ghost use Rattle.search.specs.Searches.{Revives};
ghost use Rattle.search.specs.Working.{SameWorklist, written};

use super::settle::settle;
use super::worklist::Worklist;
use adjacency::Adjacency;
use tables::LIVE;

// Settles live the queued nodes, and every other one that leads to them. Answers the number of news.
pub fn revive(
    work: &mut Worklist,
    arcs: Adjacency,
    status: &mut [u8],
    successor: &mut [u16],
    news: &mut [u16],
) -> usize
    requires same_nodes { work.old.n ≡ arcs.n }
    requires queued { Queued arcs.n work.old.visited.now work.old.queue.now work.old.span }
    requires status_in_bounds { arcs.n ≤ length status.old }
    requires successor_in_bounds { arcs.n ≤ length successor.old }
    requires news_in_bounds { arcs.n ≤ length news.old }
    ensures same { SameWorklist work.old work.new }
    ensures revives { Revives arcs.entry.n (into (chains_of arcs.entry)) work.old.span (written status.entry.now successor.old news.old work.old) (written status.exit.now successor.new news.new work.new) result }
{
    work.spread(|y, _| status[y] != LIVE, arcs);
    settle(work.span, LIVE, status, successor, news, work.visited)
}

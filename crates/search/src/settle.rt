// The verdicts, written in one place.
ghost use Rattle.std.specs.Prelude.{◌≡◌, ◌+◌, ◌≤◌, ◌<◌, length};
ghost use Rattle.tables.specs.Tables.{visited_length};
ghost use Rattle.tables.specs.Visits.{HasMark};
ghost use Rattle.search.specs.Settling.{Settled, SettledOne, Told};

use super::spread::Span;
use tables::{NO_SUCCESSOR, clear_visited, is_visited, skip_unvisited};

// Gives each visited node from the span's least to its greatest the verdict and no successor, tells its news, in rising order, and unmarks
// it. Answers the number of news. The verdict is the entry that is written, as `Settled` has it; and of the work tables it is lent the marks alone, since the queue stays as it is: as a method of `Worklist` it would have to promise that too.
pub fn settle(
    span: Span,
    verdict: u8,
    status: &mut [u8],
    successor: &mut [u16],
    news: &mut [u16],
    visited: &mut [u16],
) -> usize
    requires status_in_bounds { span.high < length status.old }
    requires successor_in_bounds { span.high < length successor.old }
    requires news_in_bounds { span.high < length news.old }
    requires visited_in_bounds { visited_length (span.high + 1) ≤ length visited.old }
    requires high_fits { span.high < 65535 }
    ensures { Settled span.low span.high verdict
        status.old successor.old news.old visited.old
        status.new successor.new news.new visited.new result }
{
    let mut told = News {
        list: news,
        count: 0,
    };
    let mut s = span.low;
    // What is visited decides where to go on, and each turn changes it: an iterator over the marks would have to be made anew in each.
    while s <= span.high {
        settle_node(s, verdict, status, successor, &mut told, visited);
        s = skip_unvisited(visited, s);
    }
    told.count
}

fn settle_node(
    s: usize,
    verdict: u8,
    status: &mut [u8],
    successor: &mut [u16],
    told: &mut News,
    visited: &mut [u16],
)
    requires status_in_bounds { s < length status.old }
    requires successor_in_bounds { s < length successor.old }
    requires has_mark { HasMark visited.old s }
    requires s_fits { s < 65536 }
    requires news_has_room { told.old.count < length told.old.list.now }
    ensures same { told.new.list.ghost_name ≡ told.old.list.ghost_name }
    ensures settled { SettledOne s verdict told.old.count
        status.old successor.old told.old.list.now visited.old
        status.new successor.new told.new.list.now visited.new told.new.count }
{
    if is_visited(visited, s) {
        clear_visited(visited, s);
        status[s] = verdict;
        successor[s] = NO_SUCCESSOR;
        told.tell(s);
    }
}

// The news of a settlement, in the front of the list.
#[derive(Drop)]
struct News<'a> {
    pub list: &'a mut [u16],
    pub count: usize,
}

impl News<'_> {
    // The news of a settled node: which state it names is said here alone.
    fn tell(&mut self, node: usize)
        requires node_fits { node < 65536 }
        requires news_has_room { self.old.count < length self.old.list.now }
        ensures same { self.new.list.ghost_name ≡ self.old.list.ghost_name }
        ensures told { Told node self.old.count self.old.list.now self.new.list.now self.new.count }
    {
        // A cast: it is proved to fit, and `try_from` would bring an error that cannot happen.
        self.list[self.count] = node as u16;
        self.count += 1;
    }
}

// Whether what a status claims is so: a live state reaches a terminal one, and the successors of an unknown one lead to an open one.
// The stored tables and the work tables go beside each other, over as many nodes: a spread is lent the work tables alone, and a test the stored ones, so that a struct of both would be taken apart for each call. That no state is visited holds before each of the two claims, and not within one.
ghost use Rattle.std.specs.Prelude.{◌≡◌, ◌↔◌, true, ℕ, ◌≤◌, ◌<◌, length};
ghost use Rattle.tables.specs.Tables.{visited_length};
ghost use Rattle.tables.specs.Visits.{NoneVisited};
ghost use Rattle.search.specs.Spreading.{Mode, allowed, Tells};
ghost use Rattle.search.specs.Working.{SameWorklist};
ghost use Rattle.audit.specs.Contents.{arcs_of};
ghost use Rattle.audit.specs.Facts.{All, starts, starts_at, covered, Backs};
ghost use Rattle.audit.specs.Parts.{Answered, Claims, Gathered};

use super::stored::Stored;
use search::spread::Span;
use search::worklist::Worklist;
use tables::{LIVE, Mark, OPEN, UNKNOWN, visited_len};

// Whether the live states reach a terminal one, and the unknown states escape.
pub fn claims_fit(stored: Stored, queue: &mut [u16], visited: &mut [u16]) -> bool
    requires none_visited { NoneVisited stored.n visited.old }
    requires queue_in_bounds { stored.n ≤ length queue.old }
    requires visited_in_bounds { visited_length stored.n ≤ length visited.old }
    ensures { Answered stored.entry.n (Claims stored.entry.n (arcs_of stored.entry) stored.entry.status.now stored.entry.marks.now stored.entry.successor.now)
        visited.old queue.old visited.new queue.new result }
{
    let live = |y: usize, _: usize| stored.status[y] == LIVE;
    let by_successor = |y: usize, p: usize| stored.status[y] == UNKNOWN
        && usize::from(stored.successor[y]) == p;
    let mut work = Worklist {
        n: stored.n,
        span: Span::none(stored.n),
        queue,
        visited,
    };
    claimed(LIVE, live, stored, &mut work) && claimed(UNKNOWN, by_successor, stored, &mut work)
}

// Visits all that is allowed from the starts of a verdict, by one spread, and says whether each state with that verdict is visited. It
// leaves no state visited. A state is queued once, and then its steps are looked at: O(n + steps).
fn claimed<F: Fn(usize, usize) -> bool>(
    verdict: u8,
    allows: F,
    stored: Stored,
    work: &mut Worklist,
) -> bool
    requires callable { (y p : ℕ) → y < stored.n → F.pre allows y p }
    requires tells { (mode : Mode) × Tells stored.n (F.post allows) (allowed mode stored.status.now stored.successor.now) }
    requires same_nodes { work.old.n ≡ stored.n }
    requires none_visited { NoneVisited stored.n work.old.visited.now }
    ensures same { SameWorklist work.old work.new }
    ensures answered { (mode : Mode) → Tells stored.entry.n (F.post allows) (allowed mode stored.entry.status.now stored.entry.successor.now) →
        Answered stored.entry.n (Backs stored.entry.n (arcs_of stored.entry) mode verdict stored.entry.status.now stored.entry.marks.now stored.entry.successor.now)
        work.old.visited.now work.old.queue.now work.new.visited.now work.new.queue.now result }
{
    gather(verdict, stored, work);
    let arcs = stored.both_ways();
    work.spread(allows, arcs.into);
    let all = all_covered(verdict, stored, work);
    work.visited[..visited_len(stored.n)].fill(0);
    all
}

// Queues and visits the starts of a verdict, where none is visited before.
fn gather(verdict: u8, stored: Stored, work: &mut Worklist)
    requires same_nodes { work.old.n ≡ stored.n }
    requires none_visited { NoneVisited stored.n work.old.visited.now }
    ensures same { SameWorklist work.old work.new }
    ensures gathered { Gathered stored.entry.n stored.entry.n (starts_at verdict stored.entry.status.now stored.entry.marks.now)
        work.old.visited.now work.old.queue.now work.new.visited.now work.new.queue.now work.new.span }
{
    work.span = Span::none(stored.n);
    for s in 0..stored.n {
        if starts(verdict, stored.status[s], stored.marks[s]) {
            work.admit(s);
        }
    }
}

// Whether a state is a start: for live a terminal state, for another verdict an open one. The verdict is a parameter here: a closure for each
// would bring `claimed` and `gather` four clauses more.
#[tactic(auto, unfolding(crate::specs::Facts::starts))]
fn starts(verdict: u8, status: u8, mark: u8) -> bool
    ensures { result ≡ starts verdict status mark }
{
    if verdict == LIVE {
        Mark::Terminal.is_set(mark)
    } else {
        status == OPEN
    }
}

// Whether each state with the verdict is visited.
#[tactic(auto, unfolding(crate::specs::Facts::covered))]
fn all_covered(verdict: u8, stored: Stored, work: &Worklist) -> bool
    requires { work.now.n ≡ stored.n }
    ensures { (result ≡ true) ↔ All stored.entry.n (covered verdict stored.entry.status.now work.now.visited.now) }
{
    (0..stored.n).all(|s| stored.status[s] != verdict || work.has_visited(s))
}

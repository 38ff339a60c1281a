// Which visited nodes keep a way to an open one. Queue length + number of visited nodes below n never grows, so the queue has room.
ghost use Rattle.std.specs.Prelude.{◌≡◌, ◌+◌, ◌≤◌, ◌<◌, length};
ghost use Rattle.tables.specs.Visits.{marked};
ghost use Rattle.adjacency.specs.Adjacencies.{chains_of};
ghost use Rattle.search.specs.Counting.{count};
ghost use Rattle.search.specs.Spreading.{into, out_of, Before};
ghost use Rattle.search.specs.Releasing.{outside, WayTo, Taken, Releases, QueuedBelow, FindsOut, Tried, Pulled, Escapes, NoSource, Rescues};
ghost use Rattle.search.specs.Working.{SameWorklist, SameBounds};

use super::worklist::Worklist;
use adjacency::Adjacency;
use tables::{OPEN, UNKNOWN, clear_visited};

impl Worklist<'_> {
    // Of the queued nodes, releases those with a step out of the visited ones: they alone are left in the queue.
    pub fn escapes(&mut self, out: Adjacency, status: &[u8], successor: &mut [u16])
        requires same_nodes { self.old.n ≡ out.n }
        requires len_in_range { self.old.span.len ≤ out.n }
        requires queued_below { QueuedBelow out.n self.old.queue.now self.old.span.len }
        requires status_in_bounds { out.n ≤ length status.now }
        requires successor_in_bounds { out.n ≤ length successor.old }
        ensures same { SameWorklist self.old self.new }
        ensures bounds { SameBounds self.old.span self.new.span }
        ensures escapes { Escapes out.entry.n (out_of (chains_of out.entry))
            status.now self.old.visited.now successor.old self.old.queue.now
            self.new.visited.now successor.new self.new.queue.now self.old.span.len self.new.span.len }
    {
        let len = self.span.len;
        self.span.len = 0;
        for at in 0..len {
            let x = usize::from(self.queue[at]);
            self.escape(x, out, status, successor);
        }
    }

    fn escape(&mut self, x: usize, out: Adjacency, status: &[u8], successor: &mut [u16])
        requires same_nodes { self.old.n ≡ out.n }
        requires in_range { x < out.n }
        requires queue_has_room { self.old.span.len + count out.n (marked self.old.visited.now) ≤ out.n }
        requires status_in_bounds { out.n ≤ length status.now }
        requires successor_in_bounds { out.n ≤ length successor.old }
        ensures same { SameWorklist self.old self.new }
        ensures bounds { SameBounds self.old.span self.new.span }
        ensures tried { Tried out.entry.n (out_of (chains_of out.entry))
            status.now x self.old.visited.now successor.old self.old.queue.now
            self.new.visited.now successor.new self.new.queue.now self.old.span.len self.new.span.len }
    {
        if self.has_visited(x)
            && let Some(p) = self.way_out(x, out, status)
        {
            self.release(x, p, successor);
        }
    }

    // A step from x to a node that is open or unknown and not visited, by its index.
    fn way_out(&self, x: usize, out: Adjacency, status: &[u8]) -> Option<usize>
        requires same_nodes { self.now.n ≡ out.n }
        requires in_range { x < out.n }
        requires status_in_bounds { out.n ≤ length status.now }
        ensures { FindsOut out.entry.n (out_of (chains_of out.entry))
            status.now self.now.visited.now x result }
    {
        // A loop: with `find` the proof that each step is in bounds did not close.
        for p in out.steps_at(x) {
            if self.leads_out(usize::from(out.ends[p]), status) {
                return Some(p);
            }
        }
        None
    }

    // Whether y is a node that is open or unknown and not visited.
    fn leads_out(&self, y: usize, status: &[u8]) -> bool
        requires { self.now.n ≤ length status.now }
        ensures { result ≡ outside self.now.n status.now self.now.visited.now y }
    {
        y < self.n && !self.has_visited(y) && (status[y] == OPEN || status[y] == UNKNOWN)
    }

    // Releases, from the queued nodes on, each visited source of a released one.
    pub fn rescue(&mut self, arcs: Adjacency, successor: &mut [u16])
        requires same_nodes { self.old.n ≡ arcs.n }
        requires queue_has_room { self.old.span.len + count arcs.n (marked self.old.visited.now) ≤ arcs.n }
        requires queued_below { QueuedBelow arcs.n self.old.queue.now self.old.span.len }
        requires successor_in_bounds { arcs.n ≤ length successor.old }
        ensures same { SameWorklist self.old self.new }
        ensures bounds { SameBounds self.old.span self.new.span }
        ensures rescues { Rescues arcs.entry.n (into (chains_of arcs.entry))
            self.old.visited.now successor.old self.old.queue.now
            self.new.visited.now successor.new self.new.queue.now self.old.span.len self.new.span.len }
    {
        let mut at = 0;
        // The queue grows while it is gone through: no range and no iterator over it has an end that moves.
        while at < self.span.len {
            let x = usize::from(self.queue[at]);
            self.rescue_sources(x, arcs, successor);
            at += 1;
        }
    }

    fn rescue_sources(&mut self, x: usize, arcs: Adjacency, successor: &mut [u16])
        requires same_nodes { self.old.n ≡ arcs.n }
        requires queue_has_room { self.old.span.len + count arcs.n (marked self.old.visited.now) ≤ arcs.n }
        requires queued_below { QueuedBelow arcs.n self.old.queue.now self.old.span.len }
        requires queued { Before self.old.queue.now self.old.span.len x }
        requires successor_in_bounds { arcs.n ≤ length successor.old }
        ensures same { SameWorklist self.old self.new }
        ensures bounds { SameBounds self.old.span self.new.span }
        ensures releases { Releases arcs.entry.n (WayTo (into (chains_of arcs.entry)))
            self.old.visited.now successor.old self.old.queue.now
            self.new.visited.now successor.new self.new.queue.now self.old.span.len self.new.span.len }
        ensures no_source { NoSource arcs.entry.n (into (chains_of arcs.entry)) self.new.visited.now x }
    {
        for p in arcs.steps_at(x) {
            self.rescue_source(p, usize::from(arcs.ends[p]), successor);
        }
    }

    // Releases y, the source of the step at index p, where it is a node and visited.
    fn rescue_source(&mut self, p: usize, y: usize, successor: &mut [u16])
        requires queue_has_room { self.old.span.len + count self.old.n (marked self.old.visited.now) ≤ self.old.n }
        requires p_fits { p < 65536 }
        requires successor_in_bounds { self.old.n ≤ length successor.old }
        ensures same { SameWorklist self.old self.new }
        ensures bounds { SameBounds self.old.span self.new.span }
        ensures pulled { Pulled self.old.n y p self.old.visited.now successor.old self.old.queue.now
            self.new.visited.now successor.new self.new.queue.now self.old.span.len self.new.span.len }
    {
        if y < self.n && self.has_visited(y) {
            self.release(y, p, successor);
        }
    }

    // x takes the step at index p as its successor, is visited no more, and is queued at the end.
    #[tactic(auto, unfolding(tables::specs::Tables::visited_length))]
    fn release(&mut self, x: usize, p: usize, successor: &mut [u16])
        requires in_range { x < self.old.n }
        requires p_fits { p < 65536 }
        requires successor_in_bounds { x < length successor.old }
        requires queue_has_room { self.old.span.len < self.old.n }
        ensures same { SameWorklist self.old self.new }
        ensures bounds { SameBounds self.old.span self.new.span }
        ensures taken { Taken x p self.old.visited.now successor.old self.old.queue.now
            self.new.visited.now successor.new self.new.queue.now self.old.span.len self.new.span.len }
    {
        // Casts: they are proved to fit, and `try_from` would bring errors that cannot happen.
        successor[x] = p as u16;
        clear_visited(self.visited, x);
        self.queue[self.span.len] = x as u16;
        self.span.len += 1;
    }
}

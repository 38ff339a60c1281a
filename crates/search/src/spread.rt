// What leads to some nodes, along steps backwards. Queue length + number of unvisited nodes below n never grows, so the queue has room.
ghost use Rattle.std.specs.Prelude.{◌≡◌, ℕ, Bool, ◌+◌, ◌≤◌, ◌<◌, length};
ghost use Rattle.tables.specs.Visits.{HasMark, marked};
ghost use Rattle.adjacency.specs.Adjacencies.{chains_of};
ghost use Rattle.search.specs.Spreading.{into, Tells, unvisited, Queued, Spread};
ghost use Rattle.search.specs.Offering.{no_span, Begun, Admitted, Offered, Offers, SourcesVisited};
ghost use Rattle.search.specs.Working.{SameWorklist};

use super::worklist::Worklist;
use adjacency::Adjacency;
use tables::{is_visited, set_visited};

// The nodes that were admitted: how many are queued, and bounds of them.
#[derive(Clone, Copy)]
pub struct Span {
    pub len: usize,
    pub low: usize,
    pub high: usize,
}

impl Span {
    // No node of n.
    pub fn none(n: usize) -> Span
        ensures { result ≡ no_span n }
    {
        Span {
            len: 0,
            low: n,
            high: 0,
        }
    }
}

// Visits and queues one node, as the first. This and `admit` are lent the two tables and no `Worklist`, which would ask more of a caller: docs/DECISIONS.md names them.
pub fn begin(start: usize, queue: &mut [u16], visited: &mut [u16]) -> Span
    requires has_mark { HasMark visited.old start }
    requires queue_has_room { 0 < length queue.old }
    requires start_fits { start < 65536 }
    ensures { Begun start visited.old queue.old visited.new queue.new result }
{
    set_visited(visited, start);
    // A cast: it is proved to fit, and `try_from` would bring an error that cannot happen.
    queue[0] = start as u16;
    Span {
        len: 1,
        low: start,
        high: start,
    }
}

// Visits and queues a node behind the others.
pub fn admit(span: Span, y: usize, queue: &mut [u16], visited: &mut [u16]) -> Span
    requires has_mark { HasMark visited.old y }
    requires queue_has_room { span.len < length queue.old }
    requires y_fits { y < 65536 }
    ensures { Admitted y visited.old queue.old span visited.new queue.new result }
{
    set_visited(visited, y);
    // A cast: it is proved to fit, and `try_from` would bring an error that cannot happen.
    queue[span.len] = y as u16;
    Span {
        len: span.len + 1,
        low: span.low.min(y),
        high: span.high.max(y),
    }
}

impl Worklist<'_> {
    // A method of `&self`: after a shared borrow of the field in a method of `&mut self` the proof knows only that its length is the same.
    #[tactic(auto, unfolding(tables::specs::Tables::visited_length))]
    pub fn has_visited(&self, s: usize) -> bool
        requires { s < self.now.n }
        ensures { result ≡ marked self.now.visited.now s }
    {
        is_visited(self.visited, s)
    }

    // The search begins with one node.
    #[tactic(auto, unfolding(tables::specs::Tables::visited_length))]
    pub fn begin(&mut self, start: usize)
        requires in_range { start < self.old.n }
        ensures same { SameWorklist self.old self.new }
        ensures begun { Begun start self.old.visited.now self.old.queue.now self.new.visited.now self.new.queue.now self.new.span }
    {
        let queue = &mut *self.queue;
        let visited = &mut *self.visited;
        self.span = begin(start, queue, visited);
    }

    // The search meets one more node.
    #[tactic(auto, unfolding(tables::specs::Tables::visited_length))]
    pub fn admit(&mut self, y: usize)
        requires in_range { y < self.old.n }
        requires queue_has_room { self.old.span.len < self.old.n }
        ensures same { SameWorklist self.old self.new }
        ensures admitted { Admitted y self.old.visited.now self.old.queue.now self.old.span self.new.visited.now self.new.queue.now self.new.span }
    {
        let span = self.span;
        let queue = &mut *self.queue;
        let visited = &mut *self.visited;
        self.span = admit(span, y, queue, visited);
    }

    // From the queued nodes, visits over and over each allowed source of a visited node: `allows` says whether the source y of the step at index p
    // is allowed. Each part that hands the closure on asks the same of it: a type that kept the closure with what it tells would be another type for each closure.
    pub fn spread<F: Fn(usize, usize) -> bool>(&mut self, allows: F, arcs: Adjacency)
        requires callable { (y p : ℕ) → y < arcs.n → F.pre allows y p }
        requires tells { (ok : ℕ → ℕ → Bool) × Tells arcs.n (F.post allows) ok }
        requires same_nodes { self.old.n ≡ arcs.n }
        requires queued { Queued arcs.n self.old.visited.now self.old.queue.now self.old.span }
        ensures same { SameWorklist self.old self.new }
        ensures spread { (ok : ℕ → ℕ → Bool) → Tells arcs.entry.n (F.post allows) ok →
            Spread arcs.entry.n (into (chains_of arcs.entry)) ok
            self.old.visited.now self.old.queue.now self.old.span self.new.visited.now self.new.queue.now self.new.span }
    {
        let mut at = 0;
        // The queue grows while it is gone through: no range and no iterator over it has an end that moves.
        while at < self.span.len {
            let x = usize::from(self.queue[at]);
            self.offer_sources(&allows, x, arcs);
            at += 1;
        }
    }

    // Offers the sources of all listed steps into x.
    fn offer_sources<F: Fn(usize, usize) -> bool>(&mut self, allows: &F, x: usize, arcs: Adjacency)
        requires callable { (y p : ℕ) → y < arcs.n → F.pre allows.now y p }
        requires tells { (ok : ℕ → ℕ → Bool) × Tells arcs.n (F.post allows.now) ok }
        requires same_nodes { self.old.n ≡ arcs.n }
        requires in_range { x < arcs.n }
        requires queue_has_room { self.old.span.len + unvisited arcs.n self.old.visited.now ≤ arcs.n }
        ensures same { SameWorklist self.old self.new }
        ensures offers { (ok : ℕ → ℕ → Bool) → Tells arcs.entry.n (F.post allows.now) ok →
            Offers arcs.entry.n (into (chains_of arcs.entry)) ok
            x self.old.visited.now self.old.queue.now self.old.span self.new.visited.now self.new.queue.now self.new.span }
        ensures sources_visited { (ok : ℕ → ℕ → Bool) → Tells arcs.entry.n (F.post allows.now) ok →
            SourcesVisited arcs.entry.n (into (chains_of arcs.entry)) ok self.new.visited.now x }
    {
        for p in arcs.steps_at(x) {
            self.offer(allows, p, usize::from(arcs.ends[p]));
        }
    }

    // Admits y, the source of the step at index p, where it is a node, not visited, and allowed.
    fn offer<F: Fn(usize, usize) -> bool>(&mut self, allows: &F, p: usize, y: usize)
        requires callable { y < self.old.n → F.pre allows.now y p }
        requires queue_has_room { self.old.span.len + unvisited self.old.n self.old.visited.now ≤ self.old.n }
        ensures same { SameWorklist self.old self.new }
        ensures offered { (ok : ℕ → ℕ → Bool) → Tells self.old.n (F.post allows.now) ok →
            Offered self.old.n (ok y p) y self.old.visited.now self.old.queue.now self.old.span self.new.visited.now self.new.queue.now self.new.span }
    {
        if y < self.n && !self.has_visited(y) && allows(y, p) {
            self.admit(y);
        }
    }
}

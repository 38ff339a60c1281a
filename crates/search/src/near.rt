// An open state near by: the quick way to a successor for a state that was just closed.
ghost use Rattle.std.specs.Prelude.{◌≡◌, true, ◌≤◌, ◌<◌, length};
ghost use Rattle.adjacency.specs.Adjacencies.{chains_of};
ghost use Rattle.search.specs.Spreading.{out_of};
ghost use Rattle.search.specs.Escaping.{toward, Escape, Near, Followed};

use adjacency::Adjacency;
use tables::{OPEN, UNKNOWN};

// How many successors are followed from each target. Measured: with none, or with no bound, some lines cost millions of list moves.
pub const NEAR: usize = 16;

// A step out of u from whose target at most NEAR successors lead to an open state, by its index. A step to an open state is looked for first:
// where many targets are unknown, following them all costs more than a second walk.
pub fn near_escape(u: usize, out: Adjacency, status: &[u8], successor: &[u16]) -> Option<usize>
    requires in_range { u < out.n }
    requires status_in_bounds { out.n ≤ length status.now }
    requires successor_in_bounds { out.n ≤ length successor.now }
    ensures { Escape out.entry.n (out_of (chains_of out.entry)) (toward out.entry.steps out.entry.ends.now)
        status.now successor.now u result }
{
    let successors = Successors {
        out,
        status,
        successor,
    };
    if let Some(p) = successors.escape_within(0, u) {
        return Some(p);
    }
    successors.escape_within(NEAR, u)
}

// The successors as they stand: an unknown state has its way by the step that its successor entry names.
#[derive(Clone, Copy)]
struct Successors<'a> {
    out: Adjacency<'a>,
    status: &'a [u8],
    successor: &'a [u16],
    ghost status_in_bounds: { out.n ≤ length status.now },
    ghost successor_in_bounds: { out.n ≤ length successor.now },
}

impl Successors<'_> {
    // The same escape with at most `most` successors followed.
    fn escape_within(self, most: usize, u: usize) -> Option<usize>
        requires most_fits { most < 65536 }
        requires in_range { u < self.out.n }
        ensures { Escape self.entry.out.n (out_of (chains_of self.entry.out)) (toward self.entry.out.steps self.entry.out.ends.now)
            self.entry.status.now self.entry.successor.now u result }
    {
        // A loop: with `find` the proof that each step is in bounds did not close.
        for p in self.out.steps_at(u) {
            if self.meets_open(most, usize::from(self.out.ends[p])) {
                return Some(p);
            }
        }
        None
    }

    // Whether one of start and the `most` states after it along successors is open.
    fn meets_open(self, most: usize, start: usize) -> bool
        requires { most < 65536 }
        ensures { result ≡ true → Near self.entry.out.n (toward self.entry.out.steps self.entry.out.ends.now)
            self.entry.status.now self.entry.successor.now start }
    {
        let mut s = start;
        for _ in 0..=most {
            if self.out.n <= s {
                return false;
            }
            if self.status[s] == OPEN {
                return true;
            }
            let Some(t) = self.follow(s) else {
                return false;
            };
            s = t;
        }
        false
    }

    // Where the successor of s leads, if s is unknown and its successor is a listed step.
    fn follow(self, s: usize) -> Option<usize>
        requires { s < self.out.n }
        ensures { Followed self.entry.out.n (toward self.entry.out.steps self.entry.out.ends.now)
            self.entry.status.now self.entry.successor.now s result }
    {
        if self.status[s] != UNKNOWN {
            return None;
        }
        let p = usize::from(self.successor[s]);
        if self.out.steps <= p {
            return None;
        }
        Some(usize::from(self.out.ends[p]))
    }
}

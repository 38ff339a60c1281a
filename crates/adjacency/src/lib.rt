// Where a state's steps are: for each state, the steps into it and the steps out of it, chained by falling index in work tables.
// An entry is 1 + the index of a step, or 0 where the chain ends. On tables with any contents a walk falls and stays inside.
#![tactic(auto)]

ghost use Rattle.std.specs.Prelude.{◌≡◌, ◌+◌, ◌≤◌, ◌<◌, length};
ghost use Rattle.std.specs.Iterator.{at_most};
ghost use Rattle.adjacency.specs.Walks.{clamp, Standing, Turn, Starts, Pushed};
ghost use Rattle.adjacency.specs.Chains.{chains, Walkable};

use std::marker::Model;

// The listed steps over n states, chained at one end, with the list of their other ends.
#[derive(Clone, Copy)]
pub struct Adjacency<'a> {
    pub n: usize,
    pub steps: usize,
    pub ends: &'a [u16],
    pub head: &'a [u16],
    pub next: &'a [u16],
    pub ghost walkable: { Walkable (chains n steps ends.now head.now next.now) },
}

impl<'a> Adjacency<'a> {
    // The steps at v, by their indices: a later step before an earlier one.
    pub fn steps_at(self, v: usize) -> Walk<'a>
        requires { v < self.n }
        ensures { Starts self.entry.head.now self.entry.next.now self.entry.steps v result }
    {
        Walk::new(self.head, self.next, self.steps, v)
    }
}

// The listed steps over the same states, chained at both ends.
#[derive(Clone, Copy)]
pub struct BothWays<'a> {
    pub into: Adjacency<'a>,
    pub out_of: Adjacency<'a>,
    pub ghost same_nodes: { into.n ≡ out_of.n },
}

// A walk over the steps at a state, by their indices.
#[derive(Drop)]
pub struct Walk<'a> {
    // 1 + the index of the step where the walk stands, or 0 at its end: an entry of the lent tables, as `first_at` and `next_at` answer it.
    at: usize,
    next: &'a [u16],
}

impl<'a> Model for Walk<'a> {
    ghost Value = { Standing };

    ghost view = { λ w. record { at = w.at; next = w.next.now } };

    ghost invariant = { λ w. w.at ≤ length w.next.now };
}

impl<'a> Walk<'a> {
    // The walk over the steps at v, among the first `steps` of the list.
    pub fn new(head: &[u16], next: &'a [u16], steps: usize, v: usize) -> Self
        requires v_in_bounds { v < length head.now }
        requires steps_in_bounds { steps ≤ length next.now }
        requires steps_fit { steps < 65536 }
        ensures { Starts head.now next.now steps v result }
    {
        Walk {
            at: below(usize::from(head[v]), steps + 1),
            next,
        }
    }
}

impl<'a> Iterator for Walk<'a> {
    type Item = usize;

    ghost next_gives = { Turn };

    ghost remaining = { λ w. at_most w.at };

    fn next(&mut self) -> Option<usize> {
        if self.at == 0 {
            return None;
        }
        let p = self.at - 1;
        self.at = below(usize::from(self.next[p]), self.at);
        Some(p)
    }
}

// An entry that is below a bound, and 0 for any other.
fn below(entry: usize, bound: usize) -> usize
    ensures { result ≡ clamp entry bound }
{
    if entry < bound { entry } else { 0 }
}

// Puts the new step p in front of the steps at v.
pub fn push(head: &mut [u16], next: &mut [u16], v: usize, p: usize)
    requires v_in_bounds { v < length head.old }
    requires p_in_bounds { p < length next.old }
    requires p_fits { p < 65535 }
    ensures { Pushed head.old next.old v p head.new next.new }
{
    next[p] = head[v];
    // A cast: it is proved to fit, and `try_from` would bring an error that cannot happen.
    head[v] = (p + 1) as u16;
}

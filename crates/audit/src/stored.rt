// The stored tables that a check reads, of any contents, long enough for their states and their listed steps.
ghost use Rattle.std.specs.Prelude.{◌≡◌, ◌≤◌, ◌<◌, length};
ghost use Rattle.adjacency.specs.Chains.{chains};
ghost use Rattle.adjacency.specs.Adjacencies.{chains_of};

use adjacency::{Adjacency, BothWays};

#[derive(Clone, Copy)]
pub struct Stored<'a> {
    // The number of states, and of the listed steps.
    pub n: usize,
    pub steps: usize,
    pub status: &'a [u8],
    pub marks: &'a [u8],
    pub from: &'a [u16],
    pub to: &'a [u16],
    pub key: &'a [u8],
    pub successor: &'a [u16],
    pub in_head: &'a [u16],
    pub out_head: &'a [u16],
    pub in_next: &'a [u16],
    pub out_next: &'a [u16],
    ghost some_states: { 0 < n },
    ghost n_fits: { n < 65536 },
    ghost steps_fit: { steps < 65535 },
    ghost status_in_bounds: { n ≤ length status.now },
    ghost marks_in_bounds: { n ≤ length marks.now },
    ghost from_in_bounds: { steps ≤ length from.now },
    ghost to_in_bounds: { steps ≤ length to.now },
    ghost key_in_bounds: { steps ≤ length key.now },
    ghost successor_in_bounds: { n ≤ length successor.now },
    ghost in_head_in_bounds: { n ≤ length in_head.now },
    ghost out_head_in_bounds: { n ≤ length out_head.now },
    ghost in_next_in_bounds: { steps ≤ length in_next.now },
    ghost out_next_in_bounds: { steps ≤ length out_next.now },
}

impl<'a> Stored<'a> {
    // The listed steps, chained at their targets and at their sources.
    pub fn both_ways(self) -> BothWays<'a>
        ensures into { chains_of result.into ≡ chains self.entry.n self.entry.steps self.entry.from.now self.entry.in_head.now self.entry.in_next.now }
        ensures out_of { chains_of result.out_of ≡ chains self.entry.n self.entry.steps self.entry.to.now self.entry.out_head.now self.entry.out_next.now }
    {
        BothWays {
            into: Adjacency {
                n: self.n,
                steps: self.steps,
                ends: self.from,
                head: self.in_head,
                next: self.in_next,
            },
            out_of: Adjacency {
                n: self.n,
                steps: self.steps,
                ends: self.to,
                head: self.out_head,
                next: self.out_next,
            },
        }
    }
}

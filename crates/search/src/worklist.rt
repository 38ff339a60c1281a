// The work tables of a search.
ghost use Rattle.std.specs.Prelude.{◌≤◌, ◌<◌, length};
ghost use Rattle.tables.specs.Tables.{visited_length};

use super::spread::Span;

// Over n nodes. In a spread those that it has met stand in the queue's front, and are marked as visited; in a release those that are released do, and are marked no more. `span` says how many stand there, and between which bounds the spread met them.
#[derive(Drop)]
pub struct Worklist<'a> {
    pub n: usize,
    pub span: Span,
    pub queue: &'a mut [u16],
    pub visited: &'a mut [u16],
    pub ghost n_fits: { n < 65536 },
    pub ghost queue_in_bounds: { n ≤ length queue.now },
    pub ghost visited_in_bounds: { visited_length n ≤ length visited.now },
}

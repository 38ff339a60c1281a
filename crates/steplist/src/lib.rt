// Where a step is listed. The step list alone decides, so that the answers are right on tables with any contents; work tables only save time.
#![tactic(auto)]

ghost use Rattle.std.specs.Prelude.{◌≡◌, true, false, ◌≤◌, ◌<◌, length};
ghost use Rattle.std.proofs.Math.Option.{none};
ghost use Rattle.tables.specs.Listing.{is_equal_at, first_place, is_listed_in};
ghost use Rattle.steplist.specs.Places.{place_of};
ghost use Rattle.steplist.specs.Blocks.{NoPair};

use adjacency::Walk;
use gid::Edge;

// How many places are looked over at once. Measured over 8,192 steps: 128, 256 and 512 take the same time, and 64 a tenth more. The greater the
// block, the longer a closer look; at 128 LLVM unrolls the block's loop whole, which doubles the code.
const BLOCK: usize = 256;

// How many of the steps out of the source the quick look follows.
const QUICK: usize = 8;

// The listed steps: what stands in the first `len` places of the three tables. `first_place`, which `find_step` promises, speaks of the first places of longer tables, so that the length is a field.
#[derive(Clone, Copy)]
pub struct Steps<'a> {
    pub len: usize,
    pub from: &'a [u16],
    pub to: &'a [u16],
    pub key: &'a [u8],
    pub ghost from_in_bounds: { len ≤ length from.now },
    pub ghost to_in_bounds: { len ≤ length to.now },
    pub ghost key_in_bounds: { len ≤ length key.now },
}

// Whether a step equal to this one is listed. Where the quick look meets one, the list need not be looked through. The chain is two slices: an
// `Adjacency` would ask more of a caller, a list of ends beside them and fewer than 65,535 steps.
pub fn is_listed(edge: Edge, steps: Steps, out_head: &[u16], out_next: &[u16]) -> bool
    requires source_fits { edge.from < 65536 }
    requires target_fits { edge.to < 65536 }
    requires source_in_bounds { edge.from < length out_head.now }
    requires chain_in_bounds { steps.len ≤ length out_next.now }
    requires steps_fit { steps.len < 65536 }
    ensures { result ≡ is_listed_in steps.entry.len steps.entry.from.now steps.entry.to.now steps.entry.key.now edge }
{
    let out = Walk::new(out_head, out_next, steps.len, edge.from);
    near_repeat(edge, steps, out) || find_step(edge, steps).is_some()
}

// Whether an equal step is one of the first QUICK of a walk.
fn near_repeat(edge: Edge, steps: Steps, mut walk: Walk) -> bool
    requires { walk.at ≤ steps.len }
    ensures { result ≡ true → is_listed_in steps.entry.len steps.entry.from.now steps.entry.to.now steps.entry.key.now edge ≡ true }
{
    // As in `find_step`: with `walk.take(QUICK)` in the place of this loop a repeat takes a twentieth more.
    for _ in 0..QUICK {
        let Some(p) = walk.next() else {
            return false;
        };
        if is_equal_at(edge, p, steps) {
            return true;
        }
    }
    false
}

// The first place of an equal step, block by block. The keys are looked at only where the ends are met.
pub fn find_step(edge: Edge, steps: Steps) -> Option<usize>
    requires source_fits { edge.from < 65536 }
    requires target_fits { edge.to < 65536 }
    ensures { place_of result ≡ first_place steps.entry.len steps.entry.from.now steps.entry.to.now steps.entry.key.now edge }
{
    // Casts: they are proved to fit, and `try_from` would bring errors that cannot happen.
    let u = edge.from as u16;
    let v = edge.to as u16;
    // Tried, and it misses the bar of docs/DECISIONS.md, that no update costs more than it must: with `step_by(BLOCK)` in the place of this loop the search of 8,192 steps takes a tenth more.
    let mut start = 0;
    while start < steps.len {
        let end = steps.len.min(start + BLOCK);
        if has_pair(u, v, start, end, steps.from, steps.to)
            && let Some(p) = look(edge, start, end, steps)
        {
            return Some(p);
        }
        start = end;
    }
    None
}

// Whether a place of a block has the source u and the target v. No branch stands in the loop, so that it is compiled to compares of eight
// entries at once.
fn has_pair(u: u16, v: u16, start: usize, end: usize, from: &[u16], to: &[u16]) -> bool
    requires start_in_range { start ≤ end }
    requires from_in_bounds { end ≤ length from.now }
    requires to_in_bounds { end ≤ length to.now }
    ensures { result ≡ false → NoPair u v start end from.now to.now }
{
    let mut hit = false;
    for i in start..end {
        hit |= (from[i] == u) & (to[i] == v);
    }
    hit
}

// The closer look: the first place before end, where there is none before start.
fn look(edge: Edge, start: usize, end: usize, steps: Steps) -> Option<usize>
    requires end_in_bounds { end ≤ steps.len }
    requires none_before { first_place start steps.from.now steps.to.now steps.key.now edge ≡ none }
    ensures { place_of result ≡ first_place end steps.entry.from.now steps.entry.to.now steps.entry.key.now edge }
{
    (start..end).find(
        |&p|
            requires { p < steps.len }
        { is_equal_at(edge, p, steps) },
    )
}

fn is_equal_at(edge: Edge, p: usize, steps: Steps) -> bool
    requires { p < steps.len }
    ensures { result ≡ is_equal_at steps.entry.from.now steps.entry.to.now steps.entry.key.now edge p }
{
    usize::from(steps.from[p]) == edge.from
        && usize::from(steps.to[p]) == edge.to
        && usize::from(steps.key[p]) == edge.key
}

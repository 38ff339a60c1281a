// How many states have each status: the totals at the end of a listing.
#![tactic(auto)]

ghost use Rattle.std.specs.Prelude.{◌≡◌, ◌≤◌, length, get_or};
ghost use Rattle.totals.specs.Counting.{totals_below};
ghost use Rattle.totals.specs.Blocks.{Adds};

use tables::{DEAD, LIVE, OPEN, UNKNOWN};

#[derive(Clone, Copy)]
pub struct Totals {
    pub open: usize,
    pub unknown: usize,
    pub live: usize,
    pub dead: usize,
}

// How many states are counted at once: at most 255, whose counts fit in a byte. Measured over 2,048 states: 96 to 224 take the same time, 64 a
// seventh more, and 255, which is not a number of whole sixteens, half as much again.
const BLOCK: usize = 128;

// How many of the first n states have each status, on any status table. A state past the table's end has none of them.
pub fn count(n: usize, status: &[u8]) -> Totals
    ensures { result ≡ totals_below n (λ s. get_or status.now s 0) }
{
    let counted = &status[..n.min(status.len())];
    let mut open = 0;
    let mut unknown = 0;
    let mut live = 0;
    let mut dead = 0;
    for block in counted.chunks(BLOCK) {
        let part = count_block(block);
        open += part.open;
        unknown += part.unknown;
        live += part.live;
        dead += part.dead;
    }
    Totals {
        open,
        unknown,
        live,
        dead,
    }
}

// How many states of a block have each status. Each comparison's outcome is added as 0 or 1, in a byte: no branch stands in the loop, and it is
// compiled to compares and sums of sixteen entries at once.
fn count_block(block: &[u8]) -> Totals
    requires { length block.now ≤ 255 }
    ensures { Adds 0 (length block.now) (λ s. get_or block.now s 0) result }
{
    let mut open = 0u8;
    let mut unknown = 0u8;
    let mut live = 0u8;
    let mut dead = 0u8;
    for &k in block {
        open += u8::from(k == OPEN);
        unknown += u8::from(k == UNKNOWN);
        live += u8::from(k == LIVE);
        dead += u8::from(k == DEAD);
    }
    Totals {
        open: usize::from(open),
        unknown: usize::from(unknown),
        live: usize::from(live),
        dead: usize::from(dead),
    }
}

// Whether no two listed steps are equal in from, to and key. For each state, the steps into it are noted at their sources, a bit for each key;
// two equal ones find the same bit. An entry has 16 bits, so the keys are taken in two ranges: O(n + steps).
ghost use Rattle.std.specs.Prelude.{◌≤◌, ◌<◌, length};
ghost use Rattle.tables.specs.Fitting.{AllBelow};
ghost use Rattle.tables.specs.Keeping.{Kept};
ghost use Rattle.adjacency.specs.Adjacencies.{chains_of};
ghost use Rattle.search.specs.Spreading.{into};
ghost use Rattle.audit.specs.Parts.{Below, Apart, ApartAll, ApartKeys, FromSources, Noted, SourcesNoted, Differ};

use adjacency::Adjacency;
use tables::{has_bit, with_bit};

// The ranges of keys start here: numbers, which are subtracted from a key, so that an enum of them would be turned back into them. Where a range starts is a parameter of what looks at it, and no field: both ranges are
// of the same steps.
const LOW: u8 = 0;

const HIGH: u8 = 16;

// The listed steps, chained at their targets, with their keys. The table of what is noted is lent beside them: it is written, and as a field
// each method would have to promise that it is still the one lent.
#[derive(Clone, Copy)]
pub struct KeyedSteps<'a> {
    pub arcs: Adjacency<'a>,
    pub key: &'a [u8],
    pub ghost key_in_bounds: { arcs.steps ≤ length key.now },
    pub ghost ends_below: { Below arcs.n arcs.steps arcs.ends.now },
}

impl KeyedSteps<'_> {
    // Whether no two are equal: a table that is emptied first, and both ranges.
    pub fn steps_differ(self, seen: &mut [u16]) -> bool
        requires { self.arcs.n ≤ length seen.old }
        ensures { Differ self.entry.arcs.n (ApartKeys self.entry.arcs.n (into (chains_of self.entry.arcs)) self.entry.key.now) seen.old seen.new result }
    {
        seen[..self.arcs.n].fill(0);
        self.range_differs(LOW, seen) && self.range_differs(HIGH, seen)
    }

    // No two steps whose keys are in a range are equal.
    fn range_differs(self, base: u8, seen: &mut [u16]) -> bool
        requires seen_in_bounds { self.arcs.n ≤ length seen.old }
        requires blank { AllBelow self.arcs.n 0 seen.old }
        ensures { Differ self.entry.arcs.n (ApartAll base self.entry.arcs.n (into (chains_of self.entry.arcs)) self.entry.key.now) seen.old seen.new result }
    {
        for v in 0..self.arcs.n {
            if !self.sources_differ(base, v, seen) {
                return false;
            }
        }
        true
    }

    // Nor are two such steps into v. Then no entry is left marked.
    fn sources_differ(self, base: u8, v: usize, seen: &mut [u16]) -> bool
        requires in_range { v < self.arcs.n }
        requires seen_in_bounds { self.arcs.n ≤ length seen.old }
        requires blank { AllBelow self.arcs.n 0 seen.old }
        ensures { Differ self.entry.arcs.n (Apart base (into (chains_of self.entry.arcs)) self.entry.key.now v) seen.old seen.new result }
    {
        if !self.note_sources(base, v, seen) {
            return false;
        }
        self.clear_sources(v, seen);
        true
    }

    // Notes the steps into v, up to one that is equal to one before.
    fn note_sources(self, base: u8, v: usize, seen: &mut [u16]) -> bool
        requires in_range { v < self.arcs.n }
        requires seen_in_bounds { self.arcs.n ≤ length seen.old }
        requires blank { AllBelow self.arcs.n 0 seen.old }
        ensures { SourcesNoted base self.entry.arcs.n (into (chains_of self.entry.arcs)) self.entry.key.now v seen.old seen.new result }
    {
        for p in self.arcs.steps_at(v) {
            if !note(base, usize::from(self.arcs.ends[p]), self.key[p], seen) {
                return false;
            }
        }
        true
    }

    // Clears what is noted of the steps into v.
    fn clear_sources(self, v: usize, seen: &mut [u16])
        requires in_range { v < self.arcs.n }
        requires seen_in_bounds { self.arcs.n ≤ length seen.old }
        requires from_sources { FromSources self.arcs.n (into (chains_of self.arcs)) v seen.old }
        ensures blank { AllBelow self.entry.arcs.n 0 seen.new }
        ensures kept { Kept self.entry.arcs.n seen.old seen.new }
    {
        for p in self.arcs.steps_at(v) {
            seen[usize::from(self.arcs.ends[p])] = 0;
        }
    }
}

// Notes a step from u with the key k, where k is in the range and no step like it is noted.
fn note(base: u8, u: usize, k: u8, seen: &mut [u16]) -> bool
    requires { u < length seen.old }
    ensures { Noted base u k seen.old seen.new result }
{
    if k < base || 15 < k - base {
        return true;
    }
    let bit = k - base;
    let entry = seen[u];
    if has_bit(entry, bit) {
        return false;
    }
    seen[u] = with_bit(entry, bit);
    true
}

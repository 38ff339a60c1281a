// The lists of steps: whether heads and next entries are those of the step list. A work table holds, for each state, 1 + the last step met
// so far with that end. The two functions share their parameters: a struct of them would be made twice by their one caller, for one call each.
ghost use Rattle.std.specs.Prelude.{◌≤◌, length};
ghost use Rattle.tables.specs.Fitting.{AllBelow};
ghost use Rattle.audit.specs.Parts.{Below, ListFits, NextsFit};

use adjacency::Adjacency;

// Whether the steps are chained at these ends.
pub fn list_fits(ends: &[u16], arcs: Adjacency, last: &mut [u16]) -> bool
    requires ends_in_bounds { arcs.steps ≤ length ends.now }
    requires last_in_bounds { arcs.n ≤ length last.old }
    requires ends_below { Below arcs.n arcs.steps ends.now }
    ensures { ListFits arcs.entry.n arcs.entry.steps ends.now arcs.entry.head.now arcs.entry.next.now last.old last.new result }
{
    last[..arcs.n].fill(0);
    nexts_fit(ends, arcs, last) && arcs.head[..arcs.n] == last[..arcs.n]
}

// Each next entry leads to the last step before with the same end.
fn nexts_fit(ends: &[u16], arcs: Adjacency, last: &mut [u16]) -> bool
    requires ends_in_bounds { arcs.steps ≤ length ends.now }
    requires last_in_bounds { arcs.n ≤ length last.old }
    requires ends_below { Below arcs.n arcs.steps ends.now }
    requires blank { AllBelow arcs.n 0 last.old }
    ensures { NextsFit arcs.entry.n arcs.entry.steps ends.now arcs.entry.next.now last.old last.new result }
{
    for p in 0..arcs.steps {
        let v = usize::from(ends[p]);
        if arcs.next[p] != last[v] {
            return false;
        }
        // A cast: it is proved to fit, and `try_from` would bring an error that cannot happen.
        last[v] = (p + 1) as u16;
    }
    true
}

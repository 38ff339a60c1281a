// Whether an update comes again, and what it does then; and what a new one does: it is listed and marked, and then judged.
// Each part asks that the update's states are in range of the tables that it is lent, and no more: an update known to be in range of n would have to bring the bounds of each table besides.
ghost use Rattle.std.specs.Prelude.{◌≡◌, ◌≤◌, ◌<◌, length};
ghost use Rattle.gid.specs.declared.Update.{Update};
ghost use Rattle.gid.specs.Histories.{step_of};
ghost use Rattle.gid.specs.Refusals.{max_states};
ghost use Rattle.tables.specs.Tables.{visited_length};
ghost use Rattle.tables.specs.Marks.{with_mark};
ghost use Rattle.tables.specs.Listing.{is_listed_in, from_after, to_after, key_after};
ghost use Rattle.tables.specs.Refused.{is_again};
ghost use Rattle.adjacency.specs.Adjacencies.{chains_of};
ghost use Rattle.search.specs.Spreading.{into, out_of};
ghost use Rattle.search.specs.Escaping.{toward};
ghost use Rattle.engine.specs.Effects.{mark_at, set_marks, name_at, names_after};
ghost use Rattle.engine.specs.Preparing.{status_again, marks_again, InRange, KeyBelow, Free};
ghost use Rattle.engine.specs.Judging.{numbered, unless_live, quickened, endangered, Judged};
ghost use Rattle.engine.specs.Done.{Chained};

use adjacency::{Adjacency, BothWays, push};
use gid::Update;
use search::near::near_escape;
use search::revive::revive;
use search::spread::Span;
use search::sweep::sweep;
use search::worklist::Worklist;
use steplist::{Steps, is_listed};
use tables::{LIVE, Mark, OPEN, UNKNOWN, UNSEEN, closes_again};

// Whether an update that the tests 5, 14 and 6 let pass comes again: a close of a closed state, or a step that is listed.
#[tactic(auto, unfolding(tables::specs::Refused::is_again))]
pub fn comes_again(update: Update, marks: &[u8], steps: Steps, out: Adjacency) -> bool
    requires states_fit { InRange 65536 update }
    requires in_range { InRange out.n update }
    requires marks_in_bounds { InRange (length marks.now) update }
    requires same_steps { out.steps ≡ steps.len }
    ensures { result ≡ is_again update marks.now (is_listed_in steps.entry.len steps.entry.from.now steps.entry.to.now steps.entry.key.now) }
{
    match update {
        Update::Step { edge } => is_listed(edge, steps, out.head, out.next),
        _ => closes_again(update, marks),
    }
}

// Names the states of a step that comes again: both `name` and `mark`, and so lent the tables of both. A close leaves all as it is.
#[tactic(auto, unfolding(crate::specs::Preparing::status_again, crate::specs::Preparing::marks_again))]
pub fn name_again(update: Update, status: &mut [u8], marks: &mut [u8])
    requires status_in_bounds { InRange (length status.old) update }
    requires marks_in_bounds { InRange (length marks.old) update }
    ensures named { status.new ≡ status_again update status.old }
    ensures marked { marks.new ≡ marks_again update marks.old }
{
    if let Update::Step { .. } = update {
        name(update, status);
        mark(update, marks);
    }
}

// Lists a step at index p. This and `chain` are lent their tables one by one: each writes them once, and a struct of them would be made for one call.
pub fn list(update: Update, p: usize, from: &mut [u16], to: &mut [u16], key: &mut [u8])
    requires states_fit { InRange 65536 update }
    requires key_fits { KeyBelow 256 update }
    requires from_free { Free p update from.old }
    requires to_free { Free p update to.old }
    requires key_free { Free p update key.old }
    ensures sources { from.new ≡ from_after p (step_of update) from.old }
    ensures targets { to.new ≡ to_after p (step_of update) to.old }
    ensures keys { key.new ≡ key_after p (step_of update) key.old }
{
    if let Update::Step { edge } = update {
        // Casts: they are proved to fit, and `try_from` would bring errors that cannot happen.
        from[p] = edge.from as u16;
        to[p] = edge.to as u16;
        key[p] = edge.key as u8;
    }
}

// Puts the step at index p in front of the steps out of its source and into its target.
#[tactic(auto, using(crate::specs::Done::pushed, crate::proofs::Acting::chained_none))]
pub fn chain(
    update: Update,
    p: usize,
    in_head: &mut [u16],
    out_head: &mut [u16],
    in_next: &mut [u16],
    out_next: &mut [u16],
)
    requires in_head_in_bounds { InRange (length in_head.old) update }
    requires out_head_in_bounds { InRange (length out_head.old) update }
    requires in_next_free { Free p update in_next.old }
    requires out_next_free { Free p update out_next.old }
    requires place_fits { p < 65535 }
    ensures { Chained p in_head.old out_head.old in_next.old out_next.old in_head.new out_head.new in_next.new out_next.new update }
{
    if let Update::Step { edge } = update {
        push(out_head, out_next, edge.from, p);
        push(in_head, in_next, edge.to, p);
    }
}

// Names the states of an update.
pub fn name(update: Update, status: &mut [u8])
    requires { InRange (length status.old) update }
    ensures { status.new ≡ names_after update status.old }
{
    match update {
        Update::Step { edge } => {
            name_state(edge.from, status);
            name_state(edge.to, status);
        }
        Update::Terminal { state } | Update::Close { state } => name_state(state, status),
    }
}

// A state that is named: unseen becomes open.
fn name_state(state: usize, status: &mut [u8])
    requires { state < length status.old }
    ensures { status.new ≡ name_at state status.old }
{
    if status[state] == UNSEEN {
        status[state] = OPEN;
    }
}

// Sets the marks of an update: its states are named, and its first one is marked.
pub fn mark(update: Update, marks: &mut [u8])
    requires { InRange (length marks.old) update }
    ensures { marks.new ≡ set_marks update marks.old }
{
    match update {
        Update::Step { edge } => {
            mark_state(Mark::Named, edge.from, marks);
            mark_state(Mark::Named, edge.to, marks);
        }
        Update::Terminal { state } => {
            mark_state(Mark::Named, state, marks);
            mark_state(Mark::Terminal, state, marks);
        }
        Update::Close { state } => {
            mark_state(Mark::Named, state, marks);
            mark_state(Mark::Closed, state, marks);
        }
    }
}

fn mark_state(mark: Mark, state: usize, marks: &mut [u8])
    requires { state < length marks.old }
    ensures { marks.new ≡ mark_at (with_mark mark) state marks.old }
{
    marks[state] = mark.set(marks[state]);
}

// Settles what an update that is listed and marked makes live or dead, over all steps with it, and answers the number of news. A closed
// state that is not live is unknown; an open state near by is its way out, and without one the search decides. The two work tables are lent one by one
// up to here, where the `Worklist` is made.
pub fn judge(
    update: Update,
    arcs: BothWays,
    status: &mut [u8],
    successor: &mut [u16],
    news: &mut [u16],
    queue: &mut [u16],
    visited: &mut [u16],
) -> usize
    requires in_range { InRange arcs.into.n update }
    requires n_fits { arcs.into.n ≤ max_states }
    requires status_in_bounds { arcs.into.n ≤ length status.old }
    requires successor_in_bounds { arcs.into.n ≤ length successor.old }
    requires news_in_bounds { arcs.into.n ≤ length news.old }
    requires queue_in_bounds { arcs.into.n ≤ length queue.old }
    requires visited_in_bounds { visited_length arcs.into.n ≤ length visited.old }
    ensures { Judged arcs.entry.into.n (into (chains_of arcs.entry.into)) (out_of (chains_of arcs.entry.out_of)) (toward arcs.entry.out_of.steps arcs.entry.out_of.ends.now) update (record { status = status.entry.now; successor = successor.old; news = news.old; visited = visited.old; queue = queue.old }) (record { status = status.exit.now; successor = successor.new; news = news.new; visited = visited.new; queue = queue.new }) result }
{
    let mut work = Worklist {
        n: arcs.into.n,
        span: Span::none(arcs.into.n),
        queue,
        visited,
    };
    if let Some(u) = quickened(update, status) {
        work.begin(u);
        return revive(&mut work, arcs.into, status, successor, news);
    }
    let Some(u) = endangered(update, status) else {
        return 0;
    };
    status[u] = UNKNOWN;
    if let Some(p) = near_escape(u, arcs.out_of, status, successor) {
        // A cast: it is proved to fit, and `try_from` would bring an error that cannot happen.
        successor[u] = p as u16;
        return 0;
    }
    work.begin(u);
    sweep(&mut work, arcs, status, successor, news)
}

// The state from which life spreads, if there is one.
#[tactic(auto, unfolding(crate::specs::Judging::quickened))]
fn quickened(update: Update, status: &[u8]) -> Option<usize>
    requires { InRange (length status.now) update }
    ensures { numbered result ≡ quickened update status.now }
{
    match update {
        Update::Step { edge } if status[edge.to] == LIVE => unless_live(edge.from, status),
        Update::Terminal { state } => unless_live(state, status),
        _ => None,
    }
}

// The state that is closed and not live, if there is one.
#[tactic(auto, unfolding(crate::specs::Judging::endangered))]
fn endangered(update: Update, status: &[u8]) -> Option<usize>
    requires { InRange (length status.now) update }
    ensures { numbered result ≡ endangered update status.now }
{
    match update {
        Update::Close { state } => unless_live(state, status),
        _ => None,
    }
}

fn unless_live(state: usize, status: &[u8]) -> Option<usize>
    requires { state < length status.now }
    ensures { numbered result ≡ unless_live state status.now }
{
    if status[state] == LIVE {
        return None;
    }
    Some(state)
}

// What can be said of a listed step by the entries of its two states, and by its key.
ghost use Rattle.std.specs.Prelude.{◌≡◌, ◌↔◌, true, ◌≤◌, length, get_or};
ghost use Rattle.audit.specs.Facts.{All, agrees, both_named, key_fits, step_fits};

use super::stored::Stored;
use tables::{DEAD, LIVE, MAX_KEY, Mark};

// Whether each listed step has both ends among the named states, and their statuses agree.
pub fn steps_fit(stored: Stored) -> bool
    ensures { (result ≡ true) ↔ All stored.entry.steps (λ p. step_fits stored.entry.n stored.entry.status.now stored.entry.marks.now (get_or stored.entry.from.now p 0) (get_or stored.entry.to.now p 0)) }
{
    (0..stored.steps).all(|p| step_fits(
        stored,
        usize::from(stored.from[p]),
        usize::from(stored.to[p]),
    ))
}

// Whether a step from u to v does.
#[tactic(auto, unfolding(crate::specs::Facts::step_fits))]
fn step_fits(stored: Stored, u: usize, v: usize) -> bool
    ensures { result ≡ step_fits stored.entry.n stored.entry.status.now stored.entry.marks.now u v }
{
    u < stored.n
        && v < stored.n
        && both_named(stored.marks[u], stored.marks[v])
        && agrees(stored.status[u], stored.status[v])
}

#[tactic(auto, unfolding(crate::specs::Facts::both_named))]
fn both_named(source: u8, target: u8) -> bool
    ensures { result ≡ both_named source target }
{
    Mark::Named.is_set(source) && Mark::Named.is_set(target)
}

// Whether the source is live where the target is, and the target dead where the source is.
#[tactic(auto, unfolding(crate::specs::Facts::agrees))]
fn agrees(source: u8, target: u8) -> bool
    ensures { result ≡ agrees source target }
{
    if target == LIVE {
        return source == LIVE;
    }
    source != DEAD || target == DEAD
}

// Whether each listed key is 0 to 31.
pub fn keys_fit(stored: Stored) -> bool
    ensures { (result ≡ true) ↔ All stored.entry.steps (λ p. key_fits (get_or stored.entry.key.now p 0)) }
{
    stored.key[..stored.steps].iter().all(|k| key_fits(*k))
}

#[tactic(auto, unfolding(crate::specs::Facts::key_fits))]
fn key_fits(key: u8) -> bool
    ensures { result ≡ key_fits key }
{
    usize::from(key) <= MAX_KEY
}

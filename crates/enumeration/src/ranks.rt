// The ranks of the histories over two states: 0 for the empty one, and from there on shorter ones first, those of one length update by update. That of a history with an update behind it is 8 times its own, plus the update's place among the eight, plus 1.
ghost use Rattle.std.specs.Prelude.{◌≡◌, not, ◌<◌};
ghost use Rattle.gid.specs.Statuses.{is_closed};
ghost use Rattle.enumeration.specs.Ranking.{update_at, unranked, may_follow, is_legal};
ghost use Rattle.enumeration.specs.Parts.{newest_of, older_of, is_close_of};

use gid::{Edge, Update};

// How many histories of at most three updates there are, legal or not: 1 + 8 + 64 + 512.
pub const RANKS: usize = 585;

// The updates over two states, "steps before terminal marks before closes, lower from first, lower to next".
fn update_at(place: usize) -> Update
    ensures { result ≡ update_at place }
{
    match place {
        0..=3 => Update::Step {
            edge: Edge {
                from: place / 2,
                to: place % 2,
                key: 0,
            },
        },
        4..=5 => Update::Terminal { state: place - 4 },
        _ => Update::Close { state: place - 6 },
    }
}

// The newest update of a history, and the rank of those before it.
pub fn newest(rank: usize) -> Update
    requires { 0 < rank }
    ensures { result ≡ newest_of rank }
{
    update_at((rank - 1) % 8)
}

pub fn older(rank: usize) -> usize
    requires { 0 < rank }
    ensures { result ≡ older_of rank }
{
    (rank - 1) / 8
}

// "A history is legal if no step and no terminal mark follows a close of its first state".
#[tactic(auto, using(crate::proofs::Legality::legal_none, crate::proofs::Legality::legal_ranked))]
pub fn is_legal(rank: usize) -> bool
    ensures { result ≡ is_legal (unranked rank) }
{
    rank == 0 || may_follow(older(rank), newest(rank)) && is_legal(older(rank))
}

fn may_follow(rank: usize, update: Update) -> bool
    ensures { result ≡ may_follow (unranked rank) update }
{
    match update {
        Update::Step { edge } => is_unclosed(rank, edge.from),
        Update::Terminal { state } => is_unclosed(rank, state),
        Update::Close { .. } => true,
    }
}

// Whether no update of a history closes a state.
#[tactic(auto, using(crate::proofs::Legality::unclosed_none, crate::proofs::Legality::unclosed_ranked))]
fn is_unclosed(rank: usize, state: usize) -> bool
    ensures { result ≡ not (is_closed (unranked rank) state) }
{
    rank == 0 || !closes(newest(rank), state) && is_unclosed(older(rank), state)
}

fn closes(update: Update, state: usize) -> bool
    ensures { result ≡ is_close_of update state }
{
    matches!(update, Update::Close { state: closed } if closed == state)
}

// A history sent to the engine, update by update, from fresh tables.
ghost use Rattle.tables.specs.Lending.{contents, StillLent};
ghost use Rattle.enumeration.specs.Ranking.{unranked};
ghost use Rattle.enumeration.specs.Sending.{Sends, StatusesAfter};

use crate::ranks::{newest, older};
use engine::Engine;
use tables::{Graph, LentTables, NO_SUCCESSOR};

// The statuses of the two states after the history of a rank, as the engine's status table has them.
pub fn statuses_after(rank: usize) -> [u8; 2]
    ensures { StatusesAfter (unranked rank) result }
{
    let mut status = [0; 2];
    let mut fresh = Engine {
        graph: Graph {
            n: 2,
            limit: 3,
            steps: 0,
        },
    };
    send(
        rank,
        &mut fresh,
        &mut LentTables {
            status: &mut status,
            marks: &mut [0; 2],
            from: &mut [0; 3],
            to: &mut [0; 3],
            key: &mut [0; 3],
            successor: &mut [NO_SUCCESSOR; 2],
            news: &mut [0; 2],
            in_head: &mut [0; 2],
            out_head: &mut [0; 2],
            queue: &mut [0; 2],
            visited: &mut [0; 1],
            in_next: &mut [0; 3],
            out_next: &mut [0; 3],
        },
    );
    status
}

// Sends the updates of a history, the oldest first.
fn send(rank: usize, engine: &mut Engine, tables: &mut LentTables)
    ensures still_lent { StillLent tables.old tables.new }
    ensures sends { Sends (unranked rank) engine.old.graph (contents tables.old) engine.new.graph (contents tables.new) }
{
    if rank == 0 {
        return;
    }
    send(older(rank), engine, tables);
    let updated = engine.update(newest(rank), tables);
    *engine = updated.engine;
}

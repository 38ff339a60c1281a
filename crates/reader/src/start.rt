// Opening the tables: "It tests 2 and 3 first, then makes the lent tables fresh".
ghost use Rattle.std.specs.Prelude.{◌≡◌};
ghost use Rattle.tables.specs.Tables.{Long};
ghost use Rattle.tables.specs.Lending.{contents, StillLent};
ghost use Rattle.reader.specs.Opening.{reader_states, freshened, Opens};

use engine::Engine;
use tables::{Graph, LentTables, MAX_STATES, MAX_VISITED, NO_SUCCESSOR, Refusal};

// Tests 2 and 3, then makes the lent tables fresh for 2,048 states and a step limit. "the news list keeps its contents"
pub fn open(limit: usize, tables: &mut LentTables) -> Result<Engine, Refusal>
    ensures still_lent { StillLent tables.old tables.new }
    ensures opens { Opens limit (contents tables.old) (contents tables.new) result }
{
    let graph = Graph {
        n: MAX_STATES,
        limit,
        steps: 0,
    };
    let lengths = tables.lengths();
    graph.lent(lengths.enough(graph.n, graph.nodes(), limit))?;
    freshen(limit, tables);
    Ok(Engine { graph })
}

// "Fresh tables have status and marks 0, successors 65,535, no steps, and 0 in every needed work entry."
fn freshen(limit: usize, tables: &mut LentTables)
    requires { Long reader_states reader_states limit (contents tables.old) }
    ensures still_lent { StillLent tables.old tables.new }
    ensures fresh { contents tables.new ≡ freshened limit (contents tables.old) }
{
    // Each table as a local, since each is filled by itself.
    let status = &mut *tables.status;
    let marks = &mut *tables.marks;
    let successor = &mut *tables.successor;
    let in_head = &mut *tables.in_head;
    let out_head = &mut *tables.out_head;
    let queue = &mut *tables.queue;
    let visited = &mut *tables.visited;
    let in_next = &mut *tables.in_next;
    let out_next = &mut *tables.out_next;
    status[..MAX_STATES].fill(0);
    marks[..MAX_STATES].fill(0);
    successor[..MAX_STATES].fill(NO_SUCCESSOR);
    in_head[..MAX_STATES].fill(0);
    out_head[..MAX_STATES].fill(0);
    queue[..MAX_STATES].fill(0);
    visited[..MAX_VISITED].fill(0);
    in_next[..limit].fill(0);
    out_next[..limit].fill(0);
}

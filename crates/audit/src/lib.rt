// The table check: whether stored tables can be trusted.
#![tactic(auto)]

ghost use Rattle.std.specs.Prelude.{List, ℕ};
ghost use Rattle.tables.specs.Tables.{tables_of};
ghost use Rattle.audit.specs.Audited.{Audited};

mod claims;
mod distinct;
mod judge;
mod lists;
mod states;
mod steps;
mod stored;

use judge::judge;
use stored::Stored;
use tables::{Graph, Lengths, Refusal};

// Tests 1 to 4, and then says whether the tables fit, that is whether some legal history gives them, in time O(n + steps). It writes the
// needed entries of the queue and of the visited marks alone, and after a yes no state is marked visited. The news list is not lent: the
// promise holds with any. The tables are lent one by one: `LentTables` has each as a `&mut`, which asks more of the caller.
pub fn audit(
    graph: Graph,
    status: &[u8],
    marks: &[u8],
    from: &[u16],
    to: &[u16],
    key: &[u8],
    successor: &[u16],
    in_head: &[u16],
    out_head: &[u16],
    queue: &mut [u16],
    visited: &mut [u16],
    in_next: &[u16],
    out_next: &[u16],
) -> Result<bool, Refusal>
    ensures { (news : List ℕ) → Audited graph (tables_of status.now marks.now from.now to.now key.now successor.now news in_head.now out_head.now queue.old visited.old in_next.now out_next.now) result queue.new visited.new }
{
    // No news list is lent.
    let lengths = Lengths {
        status: status.len(),
        marks: marks.len(),
        successor: successor.len(),
        news: 0,
        in_head: in_head.len(),
        out_head: out_head.len(),
        queue: queue.len(),
        visited: visited.len(),
        from: from.len(),
        to: to.len(),
        key: key.len(),
        in_next: in_next.len(),
        out_next: out_next.len(),
    };
    graph.lent(lengths.enough_to_check(graph.n, graph.nodes(), graph.limit))?;
    let stored = Stored {
        n: graph.n,
        steps: graph.steps,
        status,
        marks,
        from,
        to,
        key,
        successor,
        in_head,
        out_head,
        in_next,
        out_next,
    };
    Ok(judge(stored, queue, visited))
}

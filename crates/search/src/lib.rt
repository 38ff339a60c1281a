// How verdicts spread along the steps. The queue and the visited marks of a search are one value (`Worklist`). What a part asks of the queue beside the type is its own: in a spread it has room for the nodes that are not visited, in a release for those that are.
// The arcs are handed on beside it, over as many nodes (`same_nodes`): a spread, a rescue and `revive`, which docs/ARCHITECTURE.md names, are asked for the steps into each node alone, and escapes for those out of it, so that a value with both would ask more of a caller.
// Statuses, successors and news are lent one by one: a spread's test reads the first, and escapes and a rescue write the second, so that as one value they would be taken out of it again for every call but that of `settle`, which alone writes all three.
// The loops over a queue, and those over the steps at a node, look alike and stay apart: what a turn does to the tables differs, and one loop over a closure would have to say it for all of them.
#![tactic(auto)]

pub mod near;
pub mod rescue;
pub mod revive;
pub mod settle;
pub mod spread;
pub mod sweep;
pub mod worklist;

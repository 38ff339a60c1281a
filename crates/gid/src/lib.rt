// The definitions of the verdict engine: what an update, a history and a verdict are. The definitions stand in specs/, the laws about them in proofs/.
#![tactic(auto)]

// A step: from one state to another, or to itself, by a key. Two that differ only in key are two steps.
#[derive(Clone, Copy)]
pub struct Edge {
    pub from: usize,
    pub to: usize,
    pub key: usize,
}

// What the explorer sends (document 01: an update).
#[derive(Clone, Copy)]
pub enum Update {
    // `E from to key`: a step.
    Step { edge: Edge },
    // `T state - -`: a terminal mark, the activity is saved here.
    Terminal { state: usize },
    // `C state - -`: a close, nothing more leaves here.
    Close { state: usize },
}

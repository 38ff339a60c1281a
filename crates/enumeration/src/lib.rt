// Every small history: all legal histories of at most three updates over two states by the key 0, in order. Each is sent to the engine from fresh tables, and listed with the statuses that it has there.
#![tactic(auto)]

mod lines;
mod ranks;
mod sending;

pub use lines::{ROOM, enumerate};

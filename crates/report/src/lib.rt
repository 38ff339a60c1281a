// The listing: the text of what comes of each line, and of the totals, and what a program that lists a record is to do next.
#![tactic(auto)]

mod lines;
mod lister;
mod text;

pub use lister::Lister;

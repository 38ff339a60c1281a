// The picture of a record: its states by verdict and its steps, as a Graphviz graph, and what a program that draws one is to do next.
#![tactic(auto)]

mod drawer;
mod shown;
mod text;

pub use drawer::Drawer;
pub use text::PICTURE_ROOM;

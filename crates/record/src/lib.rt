// The record: the line buffer, the grammar of a line, the splitter that is fed a record's bytes, and the text of numbers and lines.
#![tactic(auto)]

mod grammar;
mod line;
mod splitter;
mod text;

pub use line::{Form, Line};
pub use splitter::{Advanced, Item, MAX_LINES, Numbered, Splitter, states_of};
pub use text::TextBuffer;

// The driver: a record's lines, read and applied one after another. Listing, drawing and reading whole rest on it.
ghost use Rattle.std.specs.Prelude.{◌≡◌, ◌≤◌, ◌<◌, length, drop};
ghost use Rattle.tables.specs.Lending.{contents, StillLent};
ghost use Rattle.record.specs.Splitting.{after_part};
ghost use Rattle.reader.specs.Turning.{Came};
ghost use Rattle.reader.specs.Advancing.{waited, Advances};

use crate::Reader;
use record::{Item, MAX_LINES};
use tables::{LentTables, Refusal};

// What came of a line, with its number: it has so many news, or is refused.
#[derive(Clone, Copy)]
pub struct LineAnswer {
    pub line: usize,
    pub outcome: Result<usize, Refusal>,
}

// What a reader waits for. It is a value, and no closure, since the promise of `advance` speaks of it.
#[derive(Clone, Copy)]
pub enum Until {
    // A line that has news or is refused.
    News,
    // A line that is refused.
    Refusal,
    // The end of the bytes.
    End,
}

// What came of the last line that was read of a part, if one has ended, and the index after it.
#[derive(Clone, Copy)]
pub struct Turn {
    pub answer: Option<LineAnswer>,
    pub next: usize,
}

impl Reader {
    // Reads the lines of a part from an index on, up to one that is waited for or to the end of the part. What came of the line that was waited for is the answer.
    #[tactic(auto, using(record::proofs::Splitting::part_next, crate::proofs::Going::going_none, crate::proofs::Going::going_found))]
    pub fn advance(&mut self, part: &[u8], at: usize, until: Until, tables: &mut LentTables) -> Turn
        ensures still_lent { StillLent tables.old tables.new }
        ensures within { at ≤ length part.now → result.next ≤ length part.now }
        ensures onward { at < length part.now → at < result.next }
        ensures advances { Advances until self.old.splitter (drop at part.now) self.old.engine.graph (contents tables.old) self.new.splitter (drop result.next part.now) self.new.engine.graph (contents tables.new) result.answer }
    {
        // Each turn's answer says where the next one begins, so that no range and no iterator has its steps.
        let mut next = at;
        while next < part.len() {
            let turn = self.turn(part, next, tables);
            if until.is_met(turn.answer) {
                return turn;
            }
            next = turn.next;
        }
        Turn { answer: None, next }
    }

    // Reads the bytes of a part from an index on, up to the end of a line or of the part, and applies the line's update.
    fn turn(&mut self, part: &[u8], at: usize, tables: &mut LentTables) -> Turn
        ensures still_lent { StillLent tables.old tables.new }
        ensures next { result.next ≡ (after_part self.old.splitter part.now at).next }
        ensures splitter { self.new.splitter ≡ (after_part self.old.splitter part.now at).splitter }
        ensures came { Came (after_part self.old.splitter part.now at).item self.old.engine.graph (contents tables.old) self.new.engine.graph (contents tables.new) result.answer }
    {
        let advanced = self.splitter.feed_line(part, at);
        self.splitter = advanced.splitter;
        Turn {
            answer: self.apply(advanced.item, tables),
            next: advanced.next,
        }
    }

    // Applies a line: an update is made on the tables, and a count gives the number of states.
    #[tactic(auto, using(crate::specs::Turning::nothing, crate::specs::Turning::malformed, crate::specs::Turning::bad_names, crate::specs::Turning::too_many, crate::specs::Turning::states, crate::specs::Turning::bad_count))]
    fn apply(&mut self, item: Item, tables: &mut LentTables) -> Option<LineAnswer>
        ensures still_lent { StillLent tables.old tables.new }
        ensures splitter { self.new.splitter ≡ self.old.splitter }
        ensures came { Came item self.old.engine.graph (contents tables.old) self.new.engine.graph (contents tables.new) result }
    {
        let (line, outcome) = match item {
            Item::Nothing => return None,
            Item::States(count) => {
                self.engine.graph.n = count;
                return None;
            }
            Item::Update(numbered) => {
                let updated = self.engine.update(numbered.update, tables);
                self.engine = updated.engine;
                (numbered.line, updated.answer)
            }
            Item::Malformed(line) => (line, Err(Refusal::Malformed)),
            Item::BadNames(line) => (line, Err(Refusal::BadNames)),
            Item::TooMany => (MAX_LINES + 1, Err(Refusal::TooManyLines)),
            Item::BadCount => (2, Err(Refusal::BadCount)),
        };
        Some(LineAnswer { line, outcome })
    }
}

impl Until {
    fn is_met(self, answer: Option<LineAnswer>) -> bool
        ensures { result ≡ waited self answer }
    {
        let Some(answer) = answer else {
            return false;
        };
        match self {
            Until::News => answer.outcome != Ok(0),
            Until::Refusal => answer.outcome.is_err(),
            Until::End => false,
        }
    }
}

// The status of a state after a record, on lent tables: the call for C answers this.
#![tactic(auto)]

ghost use Rattle.std.specs.Prelude.{◌≡◌, ◌≤◌, IfOk};
ghost use Rattle.gid.specs.Statuses.{status_dead};
ghost use Rattle.tables.specs.Lending.{contents, StillLent};
ghost use Rattle.query.specs.Answering.{StatusAfter, status_code, passes, accepted, head_refusal};

use reader::{LineAnswer, RECORD_LIMIT, Reader, Until};
use record::{Item, states_of};
use tables::{LentTables, MAX_STATES, Refusal};

// The status of a state after a record, 0 to 4, or the first refusal: of the tables, of the record's count, of the state, or of a line. The lines behind a refused one are not read, and none is where the count or the state is refused.
pub fn status_after(bytes: &[u8], state: usize, tables: &mut LentTables) -> Result<u8, Refusal>
    ensures still_lent { StillLent tables.old tables.new }
    ensures byte { IfOk result (λ b. b ≤ status_dead) }
    ensures status { StatusAfter bytes.now state (contents tables.old) (contents tables.new) (status_code result) }
{
    let engine = reader::open(RECORD_LIMIT, tables)?;
    head_refusal(states_of(bytes), state)?;
    // The record, then the newlines that it lacks. The driver is called from one place, so that it becomes part of the one function that calls it, and the tables' lengths are known there.
    let mut reader = Reader::start(engine);
    let mut part = bytes;
    for round in 0..2usize {
        let turn = reader.advance(part, 0, Until::Refusal, tables);
        accepted(turn.answer)?;
        part = reader.part_of(&[]);
    }
    Ok(tables.status[state])
}

// "The C call tests the count first, then a state at or above it".
fn head_refusal(count: Item, state: usize) -> Result<(), Refusal>
    ensures { passes result ≡ head_refusal count state }
{
    let n = match count {
        Item::BadCount => return Err(Refusal::BadCount),
        Item::States(n) => n,
        _ => MAX_STATES,
    };
    if n <= state {
        return Err(Refusal::OutOfRange);
    }
    Ok(())
}

// Whether no line was refused.
fn accepted(answer: Option<LineAnswer>) -> Result<(), Refusal>
    ensures { result ≡ accepted answer }
{
    if let Some(line) = answer {
        line.outcome?;
    }
    Ok(())
}

// The call for C on a record's bytes. It stands apart from the calls on lent tables, so that in the compiled code of each the engine's update has one place of call: the compiler then makes one function of it all. include/radvoinis.h declares it.
#![tactic(auto)]

ghost use Rattle.std.specs.Prelude.{◌≡◌};
ghost use Rattle.query.specs.Answering.{answer_of};

use reader::RECORD_LIMIT;
use tables::{LentTables, MAX_STATES, MAX_VISITED};

// The C interface: "A refusal answers 16 plus its number".
const REFUSED: u8 = 16;

// The status of a state after a record, 0 to 4, or 16 plus the number of the first refused line. "A state of 2,048 or more counts as refusal 5 and is tested first."
#[tactic(auto, using(query::proofs::Asking::answer_opened), unfolding(tables::specs::Tables::visited_length))]
#[unsafe(no_mangle)]
pub extern "C" fn radvoinis_status(bytes: &[u8], state: u32) -> u8
    ensures { result ≡ answer_of bytes.now state }
{
    // The arrays are this function's own: the C interface hands over a record and a state, and no tables.
    let mut tables = LentTables {
        status: &mut [0; MAX_STATES],
        marks: &mut [0; MAX_STATES],
        from: &mut [0; RECORD_LIMIT],
        to: &mut [0; RECORD_LIMIT],
        key: &mut [0; RECORD_LIMIT],
        successor: &mut [0; MAX_STATES],
        news: &mut [0; MAX_STATES],
        in_head: &mut [0; MAX_STATES],
        out_head: &mut [0; MAX_STATES],
        queue: &mut [0; MAX_STATES],
        visited: &mut [0; MAX_VISITED],
        in_next: &mut [0; RECORD_LIMIT],
        out_next: &mut [0; RECORD_LIMIT],
    };
    // A cast: std has no `From<u32>` for `usize`.
    match query::status_after(bytes, state as usize, &mut tables) {
        Ok(status) => status,
        Err(refusal) => REFUSED + u8::from(refusal),
    }
}

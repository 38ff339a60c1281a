// A record that comes piece by piece: what is read of a piece, and whether another one is wanted.
ghost use Rattle.std.specs.Prelude.{◌≡◌, ◌⊎◌, ◌<◌, true, false, [], length, MatchBool};
ghost use Rattle.record.specs.Splitting.{started, last_newlines};
ghost use Rattle.reader.specs.Pieces.{piece_or};

use crate::Reader;
use crate::task::piece_or;
use engine::Engine;
use tables::Graph;

impl Reader {
    // A reader that has no tables.
    pub fn idle() -> Reader
        ensures { result ≡ record { splitter = started; engine = record { graph = record { n = 0; limit = 0; steps = 0 } } } }
    {
        Reader::start(Engine {
            graph: Graph {
                n: 0,
                limit: 0,
                steps: 0,
            },
        })
    }

    // What is read of a piece of the record: the piece, or at the end of the input, where it is empty, the newlines that the record lacks.
    #[tactic(auto, using(record::proofs::Splitting::last_short, record::proofs::Splitting::last_part))]
    pub fn part_of<'a>(&self, piece: &'a [u8]) -> &'a [u8]
        ensures { result.now ≡ piece_or piece.now (last_newlines self.now.splitter) }
    {
        let newlines: &[u8] = b"\n\n";
        let lacking = self.splitter.lacking();
        piece_or(piece, &newlines[..lacking])
    }

    // Whether another piece is to be read behind this one: it is not empty, so that the input has not ended, and reading has not stopped.
    pub fn wants_more(&self, piece: &[u8]) -> bool
        ensures { MatchBool result
            ((0 < length piece.now) × (self.now.splitter.stopped ≡ false))
            ((piece.now ≡ []) ⊎ (self.now.splitter.stopped ≡ true)) }
    {
        !piece.is_empty() && !self.is_over()
    }
}

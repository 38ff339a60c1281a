// A record that a program reads piece by piece: what the program does next, which the calls that list and draw decide, and what they read of a piece.
ghost use Rattle.std.specs.Prelude.{◌≡◌};
ghost use Rattle.reader.specs.Pieces.{piece_or};

// What the program does next. It hands bytes on.
#[derive(Clone, Copy)]
pub enum Task {
    // Read the next piece of the input, an empty one at its end, and call with it.
    Read,
    // Write out the first `end` bytes of the output, and call with the same piece.
    Write,
    // Write out the first `end` bytes of the output: that is all.
    End,
}

// The piece, or at the end of the input, where it is empty, the newlines that the record lacks.
pub fn piece_or<'a>(piece: &'a [u8], newlines: &'a [u8]) -> &'a [u8]
    ensures { result.now ≡ piece_or piece.now newlines.now }
{
    if piece.is_empty() {
        return newlines;
    }
    piece
}

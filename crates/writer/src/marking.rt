// The two marks that the writer uses, and their updates.
ghost use Rattle.std.specs.Prelude.{◌≡◌};
ghost use Rattle.writer.specs.Order.{has_mark, marking};

use gid::Update;

// "uses only the marks 2 and 4": an enum beside that of a state's marks, of which the third, that a state is named, has no line: with it `marking` would need an update that there is none of.
#[derive(Clone, Copy)]
pub enum LineMark {
    Terminal,
    Close,
}

impl LineMark {
    // Whether a byte of the marks has it.
    pub fn is_set(self, byte: u8) -> bool
        ensures { result ≡ has_mark self byte }
    {
        match self {
            LineMark::Terminal => tables::Mark::Terminal.is_set(byte),
            LineMark::Close => tables::Mark::Closed.is_set(byte),
        }
    }

    // The update that puts it on a state.
    pub fn update(self, state: usize) -> Update
        ensures { result ≡ marking self state }
    {
        match self {
            LineMark::Terminal => Update::Terminal { state },
            LineMark::Close => Update::Close { state },
        }
    }
}

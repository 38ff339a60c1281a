// The marks of a state, in a byte. Each is read as its bit, also in a byte above 7, and setting one clears none.
ghost use Rattle.std.specs.Prelude.{◌≡◌};
ghost use Rattle.tables.specs.Marks.{has_mark, with_mark, weight};

#[derive(Clone, Copy)]
pub enum Mark {
    Named,
    Terminal,
    Closed,
}

impl Mark {
    // "the sum of 1 (named), 2 (terminal), 4 (closed)"
    fn weight(self) -> u8
        ensures { result ≡ weight self }
    {
        match self {
            Mark::Named => 1,
            Mark::Terminal => 2,
            Mark::Closed => 4,
        }
    }

    pub fn is_set(self, marks: u8) -> bool
        ensures { result ≡ has_mark self marks }
    {
        marks / self.weight() % 2 == 1
    }

    // The byte with the mark set.
    #[tactic(auto, unfolding(crate::specs::Marks::with_named, crate::specs::Marks::with_terminal, crate::specs::Marks::with_closed))]
    pub fn set(self, marks: u8) -> u8
        ensures { result ≡ with_mark self marks }
    {
        if self.is_set(marks) {
            return marks;
        }
        marks + self.weight()
    }
}

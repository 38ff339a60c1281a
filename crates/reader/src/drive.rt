// What a program drives with the bytes that it reads, a listing or a drawing: it asks for a task, and goes on with a piece.
ghost use Rattle.std.specs.Prelude.{◌≡◌, List, ℕ, ◌++◌, take};
ghost use Rattle.reader.specs.declared.task.Task.{Task};
ghost use Rattle.reader.specs.declared.task.Task.TheVariants.{Read, Write};
ghost use Rattle.tables.specs.Tables.{Tables};
ghost use Rattle.tables.specs.Lending.{contents, StillLent};

use crate::task::Task;
use tables::LentTables;

pub trait Drive {
    // The task that is asked for, and the place after the text in the output.
    ghost task: { Self → Task };

    ghost end: { Self → ℕ };

    // How it stands once so many bytes were read and so many written, with the piece at hand, the output and the tables.
    ghost stands: { (got put : List ℕ) → Self → (piece output : List ℕ) → Tables → Type 0 };

    fn task(&self) -> Task
        ensures { result ≡ task self.now };

    fn end(&self) -> usize
        ensures { result ≡ end self.now };

    // Goes on with a piece that was read, or, once the text was written, with the same one.
    fn go_on(&mut self, piece: &[u8], output: &mut [u8], tables: &mut LentTables)
        ensures still_lent { StillLent tables.old tables.new }
        ensures read { (got put before : List ℕ) → task self.old ≡ Read → stands got put self.old before output.old (contents tables.old) → stands (got ++ piece.now) put self.new piece.now output.new (contents tables.new) }
        ensures written { (got put : List ℕ) → task self.old ≡ Write → stands got put self.old piece.now output.old (contents tables.old) → stands got (put ++ take (end self.old) output.old) self.new piece.now output.new (contents tables.new) };
}

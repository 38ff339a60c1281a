// Entries of the lent tables, read past the end as a value that stands for none.
ghost use Rattle.std.specs.Prelude.{◌≡◌, get_or};

// The status of a state, unseen past the table's end.
pub fn status_of(status: &[u8], s: usize) -> u8
    ensures { result ≡ get_or status.now s 0 }
{
    status.get(s).copied().unwrap_or(super::UNSEEN)
}

// The tables that a call is lent, thirteen slices of any lengths.
ghost use Rattle.std.specs.Prelude.{◌≡◌};
ghost use Rattle.tables.specs.Tables.{lengths};
ghost use Rattle.tables.specs.Lending.{contents};

use super::lengths::Lengths;

#[derive(Drop)]
pub struct LentTables<'a> {
    pub status: &'a mut [u8],
    pub marks: &'a mut [u8],
    pub from: &'a mut [u16],
    pub to: &'a mut [u16],
    pub key: &'a mut [u8],
    pub successor: &'a mut [u16],
    pub news: &'a mut [u16],
    pub in_head: &'a mut [u16],
    pub out_head: &'a mut [u16],
    pub queue: &'a mut [u16],
    pub visited: &'a mut [u16],
    pub in_next: &'a mut [u16],
    pub out_next: &'a mut [u16],
}

impl LentTables<'_> {
    pub fn lengths(&self) -> Lengths
        ensures { result ≡ lengths (contents self.now) }
    {
        Lengths {
            status: self.status.len(),
            marks: self.marks.len(),
            successor: self.successor.len(),
            news: self.news.len(),
            in_head: self.in_head.len(),
            out_head: self.out_head.len(),
            queue: self.queue.len(),
            visited: self.visited.len(),
            from: self.from.len(),
            to: self.to.len(),
            key: self.key.len(),
            in_next: self.in_next.len(),
            out_next: self.out_next.len(),
        }
    }
}

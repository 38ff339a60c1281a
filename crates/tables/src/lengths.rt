// The lengths of the tables that an update is lent, and whether they are enough.
ghost use Rattle.std.specs.Prelude.{◌≡◌};
ghost use Rattle.tables.specs.Tables.{enough, needs, check_needs};

use super::visits::visited_len;

#[derive(Clone, Copy)]
pub struct Lengths {
    // An entry for each node of a search, or for each state.
    pub status: usize,
    pub marks: usize,
    pub successor: usize,
    pub news: usize,
    pub in_head: usize,
    pub out_head: usize,
    pub queue: usize,
    // A bit for each node.
    pub visited: usize,
    // An entry for each step of the limit.
    pub from: usize,
    pub to: usize,
    pub key: usize,
    pub in_next: usize,
    pub out_next: usize,
}

impl Lengths {
    // Whether each table is long enough for n states, the nodes of a search and this step limit.
    pub fn enough(self, n: usize, nodes: usize, limit: usize) -> bool
        ensures { result ≡ enough (needs n nodes limit self) }
    {
        n <= self.news && self.enough_to_check(n, nodes, limit)
    }

    // The same but for the news list, which a table check is not lent.
    pub fn enough_to_check(self, n: usize, nodes: usize, limit: usize) -> bool
        ensures { result ≡ enough (check_needs n nodes limit self) }
    {
        nodes <= self.status
            && n <= self.marks
            && limit <= self.from
            && limit <= self.to
            && limit <= self.key
            && nodes <= self.successor
            && nodes <= self.in_head
            && nodes <= self.out_head
            && nodes <= self.queue
            && visited_len(nodes) <= self.visited
            && limit <= self.in_next
            && limit <= self.out_next
    }
}

// The update: steps, terminal marks and closes on the caller's tables.
#![tactic(auto)]

ghost use Rattle.std.specs.Prelude.{◌≡◌, length, take, leb, cond, []};
ghost use Rattle.tables.specs.Lending.{contents, StillLent};
ghost use Rattle.engine.specs.Promise.{Promise};

mod accept;

use adjacency::{Adjacency, BothWays};
use gid::Update;
use steplist::Steps;
use tables::{Graph, LentTables, Refusal};

// The state value of document 01, as the one whose updates run on the caller's tables.
#[derive(Clone, Copy)]
pub struct Engine {
    pub graph: Graph,
}

// What an update comes to: the state value on which the next one is made, beside the number of its news or its refusal.
#[derive(Clone, Copy)]
pub struct Updated {
    pub engine: Engine,
    pub answer: Result<usize, Refusal>,
}

impl Engine {
    // Makes one update on the tables. Refused, or a close of a closed state, it changes nothing; nor does a repeated step, but for naming
    // its states. The state value "goes into each update and comes back, the next call being made on the one before".
    pub fn update(self, update: Update, tables: &mut LentTables) -> Updated
        ensures still_lent { StillLent tables.old tables.new }
        ensures promise { Promise self.graph update (contents tables.old) result.engine.graph result.answer (contents tables.new) }
    {
        let mut engine = self;
        let answer = engine.make(update, tables);
        Updated { engine, answer }
    }

    // The same in place, so that a refusal is handed on by `?`.
    fn make(&mut self, update: Update, tables: &mut LentTables) -> Result<usize, Refusal>
        ensures still_lent { StillLent tables.old tables.new }
        ensures promise { Promise self.old.graph update (contents tables.old) self.new.graph result (contents tables.new) }
    {
        let graph = self.graph;
        let lengths = tables.lengths();
        graph.lent(lengths.enough(graph.n, graph.nodes(), graph.limit))?;
        // Each table as a local, since what follows is lent them one by one.
        let status = &mut *tables.status;
        let marks = &mut *tables.marks;
        let from = &mut *tables.from;
        let to = &mut *tables.to;
        let key = &mut *tables.key;
        let successor = &mut *tables.successor;
        let news = &mut *tables.news;
        let in_head = &mut *tables.in_head;
        let out_head = &mut *tables.out_head;
        let queue = &mut *tables.queue;
        let visited = &mut *tables.visited;
        let in_next = &mut *tables.in_next;
        let out_next = &mut *tables.out_next;
        graph.sent(update, marks)?;
        let steps = Steps {
            len: graph.steps,
            from,
            to,
            key,
        };
        let out = Adjacency {
            n: graph.n,
            steps: graph.steps,
            ends: steps.to,
            head: out_head,
            next: out_next,
        };
        if accept::comes_again(update, marks, steps, out) {
            accept::name_again(update, status, marks);
            return Ok(0);
        }
        graph.has_place(update)?;
        accept::list(update, graph.steps, from, to, key);
        accept::chain(update, graph.steps, in_head, out_head, in_next, out_next);
        accept::name(update, status);
        accept::mark(update, marks);
        self.graph = graph.after(update);
        let arcs = BothWays {
            into: Adjacency {
                n: graph.n,
                steps: self.graph.steps,
                ends: from,
                head: in_head,
                next: in_next,
            },
            out_of: Adjacency {
                n: graph.n,
                steps: self.graph.steps,
                ends: to,
                head: out_head,
                next: out_next,
            },
        };
        Ok(accept::judge(update, arcs, status, successor, news, queue, visited))
    }
}

// The news: the first `count` entries of the news list, none where `count` is above its length.
pub fn news_part(news: &[u16], count: usize) -> &[u16]
    ensures { result.now ≡ cond (leb count (length news.now)) (take count news.now) [] }
{
    news.get(..count).unwrap_or(&[])
}

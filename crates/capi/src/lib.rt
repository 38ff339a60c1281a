// The calls for C and Rust: thin exports of the library's calls, with the same numbers. include/radvoinis.h declares them.
#![tactic(auto)]

ghost use Rattle.std.specs.Prelude.{◌≡◌, List, ℕ, cond, leb, length};
ghost use Rattle.std.proofs.Math.Option.{some};
ghost use Rattle.tables.specs.Numbers.{number_of};
ghost use Rattle.tables.specs.Refused.{status_answer};
ghost use Rattle.tables.specs.Tables.{tables_of};
ghost use Rattle.writer.specs.Answering.{write_answer, buffer_after};
ghost use Rattle.capi.specs.Calls.{kind_by, kind_refusal, Called, code_by, code_of, AuditCalled, place_after};

use engine::Engine;
use gid::{Edge, Update};
use tables::{Graph, Lengths, LentTables, Refusal};

// The C interface: what a refusal adds to its number, so that it differs from every number of news and from every status.
const REFUSED: u32 = 65536;

// The update that a kind byte, two states and a key say, or none.
fn update_of(kind: u8, first: usize, second: usize, key: usize) -> Option<Update>
    ensures { result ≡ kind_by kind first second key }
{
    match kind {
        b'E' => Some(Update::Step {
            edge: Edge {
                from: first,
                to: second,
                key,
            },
        }),
        b'T' => Some(Update::Terminal { state: first }),
        b'C' => Some(Update::Close { state: first }),
        _ => None,
    }
}

// The refusal of a kind that is none of E, T and C: that of a malformed line, behind the tests 1 to 4.
#[tactic(auto, using(crate::proofs::Few::kind_refused, crate::proofs::Few::kind_malformed))]
fn refused_kind(graph: Graph, lengths: Lengths) -> Refusal
    ensures { kind_refusal graph lengths ≡ some (number_of result) }
{
    match graph.lent(lengths.enough(graph.n, graph.nodes(), graph.limit)) {
        Ok(()) => Refusal::Malformed,
        Err(refusal) => refusal,
    }
}

// What a call answers: the number that it is accepted with, or 65,536 plus that of its refusal.
fn code(answer: Result<u32, Refusal>) -> u32
    ensures { result ≡ code_of answer }
{
    match answer {
        Ok(number) => number,
        Err(refusal) => REFUSED + u32::from(u8::from(refusal)),
    }
}

// An update of the given kind (the byte E, T or C) on the caller's tables, each of which the C interface lends by itself. Answers the number of its news, or 65,536 plus the number of its refusal; the number of steps is brought up to date.
#[unsafe(no_mangle)]
pub extern "C" fn radvoinis_update(
    n: usize,
    limit: usize,
    steps: &mut usize,
    kind: u8,
    first: usize,
    second: usize,
    by_key: usize,
    status: &mut [u8],
    marks: &mut [u8],
    from: &mut [u16],
    to: &mut [u16],
    key: &mut [u8],
    successor: &mut [u16],
    news: &mut [u16],
    in_head: &mut [u16],
    out_head: &mut [u16],
    queue: &mut [u16],
    visited: &mut [u16],
    in_next: &mut [u16],
    out_next: &mut [u16],
) -> u32
    ensures { Called n limit steps.old (kind_by kind first second by_key) (tables_of status.old marks.old from.old to.old key.old successor.old news.old in_head.old out_head.old queue.old visited.old in_next.old out_next.old) steps.new (tables_of status.new marks.new from.new to.new key.new successor.new news.new in_head.new out_head.new queue.new visited.new in_next.new out_next.new) result }
{
    let graph = Graph {
        n,
        limit,
        steps: *steps,
    };
    let mut tables = LentTables {
        status,
        marks,
        from,
        to,
        key,
        successor,
        news,
        in_head,
        out_head,
        queue,
        visited,
        in_next,
        out_next,
    };
    let Some(update) = update_of(kind, first, second, by_key) else {
        return code(Err(refused_kind(graph, tables.lengths())));
    };
    let engine = Engine { graph };
    let updated = engine.update(update, &mut tables);
    *steps = updated.engine.graph.steps;
    // A cast: it is proved to fit, and `try_from` would bring an error that cannot happen.
    code(updated.answer.map(|count| count as u32))
}

// The status question. Answers the state's byte, or 65,536 plus the number of a refusal.
#[unsafe(no_mangle)]
pub extern "C" fn radvoinis_state_status(
    n: usize,
    limit: usize,
    steps: usize,
    status: &[u8],
    state: usize,
) -> u32
    ensures { result ≡ code_by (λ b. b) (status_answer (record { n = n; limit = limit; steps = steps }) status.now state) }
{
    let graph = Graph { n, limit, steps };
    code(graph.status(status, state).map(u32::from))
}

// The length of the news part: the first `count` entries of the news list, none where `count` is above its length.
#[unsafe(no_mangle)]
pub extern "C" fn radvoinis_news_len(news: &[u16], count: usize) -> usize
    ensures { result ≡ cond (leb count (length news.now)) count 0 }
{
    engine::news_part(news, count).len()
}

// The table check. Answers 1 where the tables fit and 0 where they do not, or 65,536 plus the number of a refusal. The queue and the visited marks alone are written, below n.
#[unsafe(no_mangle)]
pub extern "C" fn radvoinis_audit(
    n: usize,
    limit: usize,
    steps: usize,
    status: &[u8],
    marks: &[u8],
    from: &[u16],
    to: &[u16],
    key: &[u8],
    successor: &[u16],
    in_head: &[u16],
    out_head: &[u16],
    queue: &mut [u16],
    visited: &mut [u16],
    in_next: &[u16],
    out_next: &[u16],
) -> u32
    ensures { (news : List ℕ) → AuditCalled (record { n = n; limit = limit; steps = steps }) (tables_of status.now marks.now from.now to.now key.now successor.now news in_head.now out_head.now queue.old visited.old in_next.now out_next.now) result queue.new visited.new }
{
    let graph = Graph { n, limit, steps };
    let answer = audit::audit(
        graph, status, marks, from, to, key, successor, in_head, out_head, queue, visited, in_next,
        out_next,
    );
    code(answer.map(u32::from))
}

// The record writer. Answers 0, the place brought to the one after the last byte, or 65,536 plus the number of a refusal.
#[unsafe(no_mangle)]
pub extern "C" fn radvoinis_write(
    n: usize,
    limit: usize,
    steps: usize,
    marks: &[u8],
    from: &[u16],
    to: &[u16],
    key: &[u8],
    buf: &mut [u8],
    at: &mut usize,
) -> u32
    ensures answer { result ≡ code_by (λ place. 0) (write_answer (record { n = n; limit = limit; steps = steps }) marks.now from.now to.now key.now buf.old at.old) }
    ensures place { at.new ≡ place_after (write_answer (record { n = n; limit = limit; steps = steps }) marks.now from.now to.now key.now buf.old at.old) at.old }
    ensures buffer { buf.new ≡ buffer_after (record { n = n; limit = limit; steps = steps }) marks.now from.now to.now key.now buf.old at.old }
{
    let graph = Graph { n, limit, steps };
    match writer::write(graph, marks, from, to, key, buf, *at) {
        Ok(end) => {
            *at = end;
            0
        }
        Err(refusal) => code(Err(refusal)),
    }
}

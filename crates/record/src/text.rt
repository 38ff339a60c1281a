// Text: bytes, decimal numbers and the lines of a record, written one behind another into a lent buffer.
ghost use Rattle.std.specs.Prelude.{[], ◌∷◌, ◌++◌, ◌≤◌, ◌<◌, ◌+◌, length};
ghost use Rattle.gid.specs.declared.Update.{Update};
ghost use Rattle.std.proofs.Math.Option.{none};
ghost use Rattle.record.specs.declared.line.Form.TheVariants.{Keyed};
ghost use Rattle.record.specs.Text.{decimal, head, field, keyed, text, Wrote};
ghost use Rattle.record.specs.Putting.{Puts};

use gid::{Edge, Update};

// A lent buffer, and the place after the text that was written to it.
#[derive(Drop)]
pub struct TextBuffer<'a> {
    pub buf: &'a mut [u8],
    pub end: usize,
}

impl TextBuffer<'_> {
    pub fn put_byte(&mut self, b: u8)
        requires { self.old.end < length self.old.buf.now }
        ensures { Puts (b ∷ []) self.old self.new }
    {
        self.buf[self.end] = b;
        self.end += 1;
    }

    pub fn put_bytes(&mut self, s: &[u8])
        requires { self.old.end + length s.now ≤ length self.old.buf.now }
        ensures { Puts s.now self.old self.new }
    {
        let end = self.end + s.len();
        self.buf[self.end..end].copy_from_slice(s);
        self.end = end;
    }

    // The decimal text of a number.
    pub fn put_number(&mut self, value: usize)
        requires { self.old.end + length (decimal value) ≤ length self.old.buf.now }
        ensures { Puts (decimal value) self.old self.new }
    {
        self.end += put_digits(&mut self.buf[self.end..], value);
    }

    // The line of an update, with its newline: "the writer uses the new line", so it is of the keyed form.
    pub fn put_update(&mut self, update: Update)
        requires { self.old.end + length (text Keyed update) < length self.old.buf.now }
        ensures { Puts (text Keyed update ++ (10 ∷ [])) self.old self.new }
    {
        match update {
            Update::Step { edge } => self.put_step(edge),
            Update::Terminal { state } => self.put_mark(b'T', state),
            Update::Close { state } => self.put_mark(b'C', state),
        }
    }

    fn put_step(&mut self, edge: Edge)
        requires { self.old.end + length (text Keyed (Update.Step edge)) < length self.old.buf.now }
        ensures { Puts (text Keyed (Update.Step edge) ++ (10 ∷ [])) self.old self.new }
    {
        self.put_head(b'E', edge.from);
        self.put_number(edge.to);
        self.put_byte(b' ');
        self.put_number(edge.key);
        self.put_byte(b'\n');
    }

    fn put_mark(&mut self, kind: u8, state: usize)
        requires { self.old.end + length (head kind state ++ field none ++ keyed Keyed (field none)) < length self.old.buf.now }
        ensures { Puts (head kind state ++ field none ++ keyed Keyed (field none) ++ (10 ∷ [])) self.old self.new }
    {
        self.put_head(kind, state);
        self.put_bytes(b"- -\n");
    }

    // The kind and the first value, each with the space after it.
    fn put_head(&mut self, kind: u8, from: usize)
        requires { self.old.end + length (head kind from) ≤ length self.old.buf.now }
        ensures { Puts (head kind from) self.old self.new }
    {
        self.put_byte(kind);
        self.put_byte(b' ');
        self.put_number(from);
        self.put_byte(b' ');
    }
}

// The decimal text of a number at the front of a buffer, and its length. It is lent the buffer alone: a call that is lent the place too has it in memory, and a record of 8,192 steps takes a tenth more to write.
#[tactic(auto, using(crate::proofs::Decimals::some_digit, crate::proofs::Writing::room_more))]
fn put_digits(buf: &mut [u8], value: usize) -> usize
    requires { length (decimal value) ≤ length buf.old }
    ensures { Wrote (decimal value) buf.old buf.new result }
{
    // Casts: they are proved to fit.
    if value < 10 {
        buf[0] = b'0' + value as u8;
        return 1;
    }
    let at = put_digits(buf, value / 10);
    buf[at] = b'0' + (value % 10) as u8;
    at + 1
}

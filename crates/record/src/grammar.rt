// The grammar of a line: "`E 3 4` a step, `T 3 -` a terminal mark, `C 3 -` a close", and with keys `E 3 4 7`, `T 3 - -`, `C 3 - -`. Every other byte is malformed. A count is a value by itself.
// Each function takes the bytes that are left and gives what it reads at their front with the bytes behind it, as the definition of the same name says.
#![tactic(auto, unfolding(crate::specs::Grammar::line_of, crate::specs::Grammar::count_of, crate::specs::Grammar::fields, crate::specs::Grammar::update, crate::specs::Grammar::step, crate::specs::Grammar::key_of, crate::specs::Grammar::mark_with, crate::specs::Grammar::no_key, crate::specs::Grammar::behind, crate::specs::Grammar::value, crate::specs::Grammar::digits))]

ghost use Rattle.std.specs.Prelude.{◌≡◌, ◌≤◌};
ghost use Rattle.record.specs.Grammar.{digits, value, behind, whole, key_of, step, no_key, mark_with, update, fields, count_of};
ghost use Rattle.record.specs.Buffer.{line_in, line_count};
ghost use Rattle.record.specs.Parsing.{parsed, digit_of, front, rest};

use crate::line::{Form, Line, content};
use gid::{Edge, Update};
use tables::MAX_STATES;

// "A value is decimal, 0 to 65,535"
const MAX_VALUE: usize = 65535;

impl Line {
    // The update that the line is, in a record of a form.
    pub fn parse(self, form: Form) -> Option<Update>
        ensures { result ≡ parsed (line_in form self) }
    {
        let bytes = self.bytes;
        fields(form, content(&bytes, self.len)?)
    }

    // The count that the line is.
    pub fn count(self) -> Option<usize>
        ensures { result ≡ parsed (line_count self) }
    {
        let bytes = self.bytes;
        count_bytes(content(&bytes, self.len)?)
    }
}

// "a number from 1 to 2,048"
pub fn count_bytes(s: &[u8]) -> Option<usize>
    ensures { result ≡ parsed (count_of s.now) }
{
    match value(s)? {
        (number @ 1..=MAX_STATES, []) => Some(number),
        _ => None,
    }
}

// The kind, a space, a value, a space, and the rest: "one space between".
fn fields(form: Form, s: &[u8]) -> Option<Update>
    ensures { result ≡ parsed (fields form s.now) }
{
    let (kind, s) = s.split_first()?;
    let (from, s) = value(behind(b' ', s)?)?;
    update(form, *kind, from, behind(b' ', s)?)
}

// By the kind, E, T or C: the update from a value, with the bytes from `to` on.
fn update(form: Form, kind: u8, from: usize, s: &[u8]) -> Option<Update>
    ensures { result ≡ parsed (update form kind from s.now) }
{
    match kind {
        b'E' => step(form, from, s),
        b'T' => mark_with(form, Update::Terminal { state: from }, s),
        b'C' => mark_with(form, Update::Close { state: from }, s),
        _ => None,
    }
}

// A step's `to` and key, up to the line's end.
fn step(form: Form, from: usize, s: &[u8]) -> Option<Update>
    ensures { result ≡ parsed (step form from s.now) }
{
    let (to, s) = value(s)?;
    let (key, s) = key_of(form, s)?;
    let edge = Edge { from, to, key };
    whole(Update::Step { edge }, s)
}

// A step's key: "A record with the old names line gives every step key 0". By the form, as `key_of` has it: a form is what the splitter keeps of the names line.
fn key_of(form: Form, s: &[u8]) -> Option<(usize, &[u8])>
    ensures { front result ≡ key_of form s.now }
{
    match form {
        Form::Plain => Some((0, s)),
        Form::Keyed => value(behind(b' ', s)?),
    }
}

// The `to` and the key of a terminal mark or a close, up to the line's end.
fn mark_with(form: Form, mark: Update, s: &[u8]) -> Option<Update>
    ensures { result ≡ parsed (mark_with form mark s.now) }
{
    whole(mark, no_key(form, behind(b'-', s)?)?)
}

// What is behind the key of a terminal mark or a close, which has none: "T and C lines have `-` there." One function with `key_of` would take what it reads as a closure, and give a number where none is read.
fn no_key(form: Form, s: &[u8]) -> Option<&[u8]>
    ensures { rest result ≡ no_key form s.now }
{
    match form {
        Form::Plain => Some(s),
        Form::Keyed => behind(b'-', behind(b' ', s)?),
    }
}

// The update, where the line ends here.
fn whole(update: Update, s: &[u8]) -> Option<Update>
    ensures { result ≡ parsed (whole update s.now) }
{
    match s {
        [] => Some(update),
        _ => None,
    }
}

// What is behind a byte, where the bytes start with it.
fn behind(byte: u8, s: &[u8]) -> Option<&[u8]>
    ensures { rest result ≡ behind byte s.now }
{
    match s {
        [first, rest @ ..] if *first == byte => Some(rest),
        _ => None,
    }
}

// "A value is decimal, 0 to 65,535, without leading zeros."
fn value(s: &[u8]) -> Option<(usize, &[u8])>
    ensures { front result ≡ value s.now }
{
    match s {
        [b'0', rest @ ..] => Some((0, rest)),
        [first, rest @ ..] => digits(digit_of(*first)?, rest),
        [] => None,
    }
}

// The rest of a value whose first digits make a number.
fn digits(mut number: usize, mut s: &[u8]) -> Option<(usize, &[u8])>
    requires { number ≤ 65535 }
    ensures { front result ≡ digits number s.now }
{
    while let [byte, rest @ ..] = s
        && let Some(digit) = digit_of(*byte)
    {
        number = number * 10 + digit;
        if MAX_VALUE < number {
            return None;
        }
        s = rest;
    }
    Some((number, s))
}

fn digit_of(b: u8) -> Option<usize>
    ensures { result ≡ digit_of b }
{
    match b {
        b'0'..=b'9' => Some(usize::from(b - b'0')),
        _ => None,
    }
}

// The line buffer: "The reader collects each line in its own 16 bytes before judging it."
ghost use Rattle.std.specs.Prelude.{◌≡◌, false, ◌≤◌, ◌<◌, take, MatchOption};
ghost use Rattle.record.specs.Text.{names};
ghost use Rattle.record.specs.Items.{same};
ghost use Rattle.record.specs.Buffer.{empty_line, filled_from, of_bytes, is_names_in, is_states_in};

// The two forms of a record, by its names line: `kind from to`, and `kind from to key`.
#[derive(Clone, Copy)]
pub enum Form {
    Plain,
    Keyed,
}

#[derive(Clone, Copy)]
pub struct Line {
    // The line's bytes, the first 16 of them.
    pub bytes: [u8; 16],
    // How many there are. 17 says that there are more than 16, as the meaning of filling (`filled_from`) has it.
    pub len: usize,
}

// A line with the index of the newline, or of the end, that it was filled up to.
#[derive(Clone, Copy)]
pub struct Filled {
    pub line: Line,
    pub next: usize,
}

impl Line {
    pub fn empty() -> Line
        ensures { result ≡ empty_line }
    {
        Line {
            bytes: [0u8; 16],
            len: 0,
        }
    }

    // The line with the bytes of s from an index on, up to a newline or the end of s, one by one: the first 16 are kept. By indices, here and where a part is fed and read, as `filled_from`, `after_part` and the promise of `advance` have it.
    pub fn filled(self, s: &[u8], at: usize) -> Filled
        ensures { result ≡ filled_from self s.now at }
    {
        let mut line = self;
        for i in at..s.len() {
            let b = s[i];
            if b == b'\n' {
                return Filled { line, next: i };
            }
            // The length is read once, so that it stays in a register.
            let len = line.len;
            if len < 16 {
                line.bytes[len] = b;
                line.len = len + 1;
            } else {
                line.len = 17;
            }
        }
        Filled {
            line,
            next: at.max(s.len()),
        }
    }

    // Whether the line is the names line of a form.
    pub fn is_names(self, form: Form) -> bool
        ensures { result ≡ is_names_in form self }
    {
        self.is(names(form))
    }

    // Whether the line is `states`.
    pub fn is_states(self) -> bool
        ensures { result ≡ is_states_in self }
    {
        self.is(b"states")
    }

    // Whether the line has the bytes of a text, and no more.
    fn is(self, text: &[u8]) -> bool
        ensures { result ≡ of_bytes (λ l. same l text.now) false self }
    {
        let bytes = self.bytes;
        content(&bytes, self.len) == Some(text)
    }
}

// The bytes of a line, where there are at most 16. A line lends a copy of them: one that lends its own is kept in memory while it is filled, which costs time.
pub(crate) fn content(bytes: &[u8; 16], len: usize) -> Option<&[u8]>
    ensures { MatchOption result (16 < len) (λ s. (len ≤ 16) × (s.now ≡ take len bytes.now)) }
{
    if 16 < len { None } else { Some(&bytes[..len]) }
}

// The names line of a form, as the definition of this name has it.
fn names(form: Form) -> &'static [u8]
    ensures { result.now ≡ names form }
{
    match form {
        Form::Plain => b"kind from to",
        Form::Keyed => b"kind from to key",
    }
}

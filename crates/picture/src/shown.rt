// What a picture is drawn of.
ghost use Rattle.std.specs.Prelude.{◌≤◌, length};
ghost use Rattle.gid.specs.Refusals.{max_steps};
ghost use Rattle.reader.specs.Opening.{reader_states};

// What a picture shows: the first n states, and the first of the listed steps.
#[derive(Clone, Copy)]
pub struct Shown<'a> {
    pub n: usize,
    pub steps: usize,
    pub status: &'a [u8],
    pub marks: &'a [u8],
    pub from: &'a [u16],
    pub to: &'a [u16],
    pub key: &'a [u8],
    pub successor: &'a [u16],
    pub ghost few_states: { n ≤ reader_states },
    pub ghost few_steps: { steps ≤ max_steps },
    pub ghost a_source_each: { steps ≤ length from.now },
    pub ghost a_target_each: { steps ≤ length to.now },
    pub ghost a_key_each: { steps ≤ length key.now },
}

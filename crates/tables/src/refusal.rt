// What a call refuses, by document 01's numbers.
ghost use Rattle.std.specs.Prelude.{◌≡◌};
ghost use Rattle.tables.specs.Numbers.{number_of};

// "Numbers by who causes them"
#[derive(Clone, Copy, PartialEq, Eq)]
pub enum Refusal {
    // The caller that lends: n is not from 1 to 2,048,
    BadStates = 1,
    // the step limit is not from 1 to 8,192,
    BadLimit = 2,
    // a table is too short,
    ShortTable = 3,
    // or the state value counts more steps than the limit.
    ExcessSteps = 4,
    // The explorer that sends: a state is out of range,
    OutOfRange = 5,
    // something leaves a closed state,
    ClosedSource = 6,
    // the step list is full,
    ListFull = 9,
    // or a key is above 31.
    BadKey = 14,
    // A record: "10: the names line is not exact.",
    BadNames = 10,
    // "11: a line is malformed.",
    Malformed = 11,
    // "12: line 65,536 exists",
    TooManyLines = 12,
    // "17 as line 2": the count is missing or is none.
    BadCount = 17,
    // "13: the writer's buffer is too short from its starting place, or that place is past its end."
    ShortBuffer = 13,
}

impl From<Refusal> for u8 {
    ghost from_gives = { λ refusal number. number ≡ number_of refusal };

    fn from(refusal: Refusal) -> u8 {
        // The cast is the conversion: an enum has its own numbers.
        refusal as u8
    }
}

// The table of refusals: why a call is turned down, as one enum, and the numbers that C has for it.
#![tactic(auto)]

ghost use Rattle.std.specs.Prelude.{◌≡◌};
ghost use Rattle.refusals.specs.Table.{number_of, outcome};

// A row of the table.
#[derive(Clone, Copy, Debug, PartialEq, Eq)]
pub enum Refusal {
    // Fewer words than an archive's header, or than its capacity asks for.
    SliceShort = 1,
    // A header that is not an archive's.
    BadHeader = 2,
    // Records that are not an archive's.
    BadRecords = 3,
    // A reference or a capacity out of range.
    BadStart = 4,
    // A trial number out of range.
    BadNumber = 5,
    // A coordinate out of range.
    BadCoordinate = 6,
    // A trial number that is held.
    NumberHeld = 7,
    // No room for a further trial.
    Full = 8,
    // A trial number that is not held.
    NotHeld = 9,
    // Twice the same trial number.
    SameNumber = 10,
    // More trials to keep than are held.
    AboveCount = 11,
    // Too short a log.
    LogShort = 12,
    // Kept numbers that are not the counts.
    Miscount = 13,
    // No trial held.
    NoneHeld = 14,
    // A card's line that is not of the form.
    CardForm = 15,
    // Too short an output.
    OutputShort = 16,
    // A slice whose length is no multiple.
    BadLength = 17,
    // A tie rule that is neither of the two.
    BadRule = 18,
    // A double that is no coordinate.
    BadDouble = 19,
    // More points than are counted.
    TooManyPoints = 20,
    // An order of the axes that is none of the six.
    BadOrder = 22,
    // Runs too few or too many, or whose references differ.
    BadRuns = 23,
}

impl Refusal {
    // The number of the row.
    pub fn number(self) -> u64
        ensures { result ≡ number_of self }
    {
        self as u64
    }
}

// What a call answers that has nothing else to answer: 0 when done, else the number of the row.
pub fn number(done: Result<(), Refusal>) -> u64
    ensures { result ≡ outcome done }
{
    match done {
        Ok(()) => 0,
        Err(refusal) => refusal.number(),
    }
}

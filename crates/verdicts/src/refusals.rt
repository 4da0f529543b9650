// Why a file is refused, and on which line.
ghost use Rattle.std.specs.Prelude.{◌≡◌};
ghost use Rattle.verdicts.specs.Refused.{number};

// The reasons, with the scope's numbers.
#[derive(Clone, Copy, PartialEq, Eq)]
pub enum Reason {
    // An answer buffer under 128 bytes.
    ShortBuffer = 1,
    // A file above 16,384 bytes.
    TooLong = 2,
    // The expected line is missing, does not begin with its key and `=`, or lacks its LF; or bytes follow the last line.
    NoLine = 3,
    // The value is not numbers, or tokens, and commas.
    NoValue = 4,
    // A number out of its range.
    OutOfRange = 5,
    // Too many entries, or too few.
    WrongCount = 6,
    // Final states that do not ascend.
    Unordered = 7,
    // Tokens that end before the term does, or run on after it.
    NoTerm = 8,
    // A left side that is a bare variable, or whose variables are not x0, x1, .. once each.
    LeftVariables = 9,
    // A right side with a variable that the left side lacks.
    UnknownVariable = 10,
    // Classes that are not numbered as they come.
    Misnumbered = 11,
}

// A refusal, and the line on which it stands, counted from 1. A file that is too long is refused on no line.
#[derive(Clone, Copy, PartialEq, Eq)]
pub struct Refusal {
    pub reason: Reason,
    pub line: Option<u32>,
}

impl Reason {
    // The scope's number.
    pub fn number(self) -> u8
        ensures { result ≡ number self }
    {
        self as u8
    }
}

impl Refusal {
    // The reason, on this line.
    pub fn on_line(reason: Reason, line: u32) -> Refusal
        ensures { (result.reason ≡ reason) × (result.line ≡ Some line) }
    {
        Refusal {
            reason,
            line: Some(line),
        }
    }
}

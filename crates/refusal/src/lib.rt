// Why a call is refused.
#![tactic(auto)]

ghost use Rattle.std.specs.Prelude.{◌≡◌, ◌<◌};
ghost use Rattle.refusal.specs.Number.{number};

// Each refusal, as the number that stands for it says.
#[derive(Clone, Copy, Debug, PartialEq, Eq)]
pub enum Refusal {
    // the job is not well formed, a store is over its bound, or a clause cannot be read
    IllFormed = 1,
    // over 64 switches
    TooManySwitches,
    // a value or a setting's codes out of bounds, or low above high
    OutOfBounds,
    // a list's count not 1 to 64, or not strictly rising
    BadList,
    // of two values, f not below t
    NotRising,
    // a switch literal not below 2 × switches
    UnknownSwitch,
    // 32 settings are there already
    TableFull,
    UnknownSetting,
    // over six terms, a setting lacking its coefficient, or settings not strictly rising
    BadTerms,
    // a coefficient zero or outside
    BadCoefficient,
    // a constant outside
    BadConstant,
    UnknownOperation,
    // a column above 12
    ColumnTooTall,
    // variables would pass 65,535
    TooManyVariables,
    // the clauses, or a text, don't fit the entries left
    NoSpace,
    // a length that is not the variable count, or a byte other than 0 and 1
    NoAssignment,
    // a clause number not below the clause count
    UnknownClause,
    // a field of a job file that is no call, or a file too long or empty
    BadField,
    // a solver's answer that is not whole
    NotWhole,
    // a solver's answer that gives a variable unknown, twice or not at all
    NotGivenOnce,
    // an assignment that leaves a clause unsatisfied
    Unsatisfied,
}

impl Refusal {
    pub fn number(self) -> u32
        ensures number { result ≡ number self }
        ensures bounds { (0 < result) × (result < 22) }
    {
        self as u32
    }
}

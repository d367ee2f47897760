// The grounds on which a call is refused. Each has a number, by which a refusal is told outside: 1 to 6 are asked of a model, a question and a
// sheet alike, the others of what their names say.
#![tactic(auto)]

ghost use Rattle.std.specs.Prelude.{◌≡◌};
ghost use Rattle.refusals.specs.Number.{number};

#[derive(Clone, Copy, Debug, PartialEq, Eq)]
pub enum Refusal {
    BlockCount = 1,
    WordSum = 2,
    Heading = 3,
    HeadFields = 4,
    FieldRange = 5,
    SpareBytes = 6,
    Inconsistent = 7,
    NotFormed = 9,
    NotThePlan = 10,
    WrongTotal = 11,
    SmallBuffer = 12,
    UnreachedNode = 13,
    NoModel = 20,
    NoQuestion = 21,
    NoBoundOnPlans = 22,
    NoPlanShown = 23,
    TooManyPaths = 24,
    TooManyPlans = 25,
}

impl Refusal {
    pub fn number(self) -> u32
        ensures { result ≡ number self }
    {
        self as u32
    }
}

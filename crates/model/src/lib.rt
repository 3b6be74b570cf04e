//! The rule for a step, as mathematics: definitions and laws. Of code there are only the causes of refusals, which all others name.
#![tactic(auto)]

ghost use Rattle.std.specs.Prelude.{◌≡◌};
ghost use Rattle.model.specs.Outcome.{number};

// The causes of refusals, in the order of their numbers, from 1 on.
#[derive(Clone, Copy, Debug, PartialEq, Eq, Drop)]
pub enum Cause {
    Malformed = 1,
    OutOfRange,
    Missing,
    MissedRate,
    OtherTunnels,
    MissedRow,
    OverProtected,
    OverTotal,
    NoEvenPlan,
    NoRoom,
    NoSuchStep,
    NoSuchDesk,
    FourWait,
    NothingWaits,
    OtherShared,
    TooMany,
    OtherSteps,
    Unfit,
    LagOutside,
    BadScript,
    Unshareable,
}

impl Cause {
    pub fn number(self) -> u64
        ensures { result ≡ number self }
    {
        self as u64
    }
}

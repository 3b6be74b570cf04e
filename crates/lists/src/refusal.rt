// Why an operation refuses, and where.
ghost use Rattle.std.specs.Prelude.{◌≡◌};
ghost use Rattle.model.specs.declared.Cause.TheVariants.{NoRoom as no_room};

pub use model::Cause;

// A refusal: its cause, and the two numbers that say where.
#[derive(Clone, Copy, Debug, PartialEq, Eq, Drop)]
pub struct Refusal {
    pub cause: Cause,
    pub place: u64,
    pub second: u64,
}

impl Refusal {
    // Of a lent output that is too short: how long it has to be.
    pub fn no_room(needed: usize) -> Refusal
        ensures { result ≡ record { cause = no_room; place = needed; second = 0 } }
    {
        Refusal {
            cause: Cause::NoRoom,
            place: needed as u64,
            second: 0,
        }
    }
}

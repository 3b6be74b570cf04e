// The amounts of the tunnels in the rows of a block: a vector of a number for each row, and one for each tunnel.
ghost use Rattle.std.specs.Prelude.{◌≡◌, ◌+◌, ◌*◌, ◌≤◌, ◌<◌};
ghost use Rattle.model.specs.Limits.{most_tunnels};
ghost use Rattle.loads.specs.Tables.{block_rows, number_at, AmountTable};

use crate::gather::{AMOUNTS, ROWS};

// No amount is over the largest, in as many parts as there can be.
#[derive(Drop)]
pub struct Amounts {
    pub numbers: [u64; AMOUNTS],
    ghost table: { AmountTable most_tunnels numbers },
}

impl Amounts {
    // At first all are 0.
    pub fn new() -> Amounts {
        Amounts {
            numbers: [0; AMOUNTS],
        }
    }
}

// Where the amount of tunnel t in row k of the block stands.
pub fn amount_at(t: usize, k: usize) -> usize
    requires { (t < most_tunnels) × (k < block_rows) }
    ensures { result ≡ number_at t k }
{
    ROWS * t + k
}

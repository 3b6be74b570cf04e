// The demands of 1 to 16 services, each in range, with what they add up to. In a clause a value of the type is its list.
ghost use Rattle.std.specs.Prelude.{◌≡◌, ◌≤◌, length};
ghost use Rattle.model.specs.Outcome.{good, unless};
ghost use Rattle.model.specs.declared.Cause.TheVariants.{Unshareable as unshareable};
ghost use Rattle.model.specs.Search.{first};
ghost use Rattle.lists.specs.Refusals.{judged};
ghost use Rattle.sharing.specs.Share.{most_services, total, bad_demand};
ghost use Rattle.sharing.specs.Inner.{InRange, FirstBad};

use crate::unshareable;
use lists::Network;
use lists::refusal::Refusal;
use std::marker::Model;

// The place of the first demand out of range, or the count where there is none; and the demands before it, added up. Where the loop gives
// the refusal itself, the compiler counts for it, with two steps more for each demand.
#[derive(Clone, Copy)]
struct Looked {
    bad: usize,
    sum: u64,
}

fn look(list: &[u64]) -> Looked
    requires { length list.now ≤ most_services }
    ensures { FirstBad list.now result.bad result.sum }
{
    let mut sum: u64 = 0;
    // An index, which the refusal names.
    for bad in 0..list.len() {
        let demand = list[bad];
        if Network::AMOUNT < demand {
            return Looked { bad, sum };
        }
        sum += demand;
    }
    Looked {
        bad: list.len(),
        sum,
    }
}

#[derive(Drop)]
pub(crate) struct Demands<'a> {
    list: &'a [u64],
    sum: u64,
}

impl<'a> Model for Demands<'a> {
    ghost use Rattle.std.specs.Prelude.{ℕ, List};
    ghost use Rattle.sharing.specs.Demands.{AreDemands};

    ghost Value = { List ℕ };

    ghost view = { λ d. d.list.now };

    ghost invariant = { AreDemands };
}

impl<'a> Demands<'a> {
    // Refuses the first demand out of range.
    pub fn judge(list: &'a [u64]) -> Result<Demands<'a>, Refusal>
        requires { (1 ≤ length list.now) × (length list.now ≤ most_services) }
        ensures { result ≡ judged (unless unshareable (first (length list.now) (bad_demand list.now)) (good list.now)) }
    {
        let Looked { bad, sum } = look(list);
        if bad < list.len() {
            let service = (bad + 1) as u64;
            return Err(unshareable(service, 0));
        }
        Ok(Demands { list, sum })
    }

    pub fn list(&self) -> &'a [u64]
        ensures list { result.now ≡ self.now }
        ensures in_range { InRange self.now }
    {
        self.list
    }

    pub fn sum(&self) -> u64
        ensures { result ≡ total self.now }
    {
        self.sum
    }
}

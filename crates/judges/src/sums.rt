// The sums of a network: whether each flow's old amounts add up to its rate, and its new ones to its next.
ghost use Rattle.std.specs.Prelude.{◌≡◌, ◌%◌, ◌^◌, replicate};
ghost use Rattle.model.specs.Limits.{most_flows};
ghost use Rattle.model.specs.Rule.{missed_rate};
ghost use Rattle.lists.specs.Lists.{next_in, network_sizes, network_of};
ghost use Rattle.lists.specs.Good.{NetworkRanges};
ghost use Rattle.lists.specs.Refusals.{judged};
ghost use Rattle.forms.specs.Read.{add_up};
ghost use Rattle.judges.specs.Sums.{Gathered, pair_of, missed_of};

use forms::form::Form;
use lists::Network;
use lists::judged::NetworkList;
use lists::refusal::{Cause, Refusal};

const FLOWS: usize = Network::FLOWS as usize;

// A flow's two sums are kept in one number, the old one in its low half and the new one times this: either sum lies below this,
// so that one addition and one comparison do for both.
const PAIR: u64 = 0x1_0000_0000;

// The sums of each flow's old and new amounts, gathered in one pass over the tunnels.
fn gather(list: &[u64], sizes: Network, sums: &mut [u64])
    requires { NetworkRanges list.now × (sizes ≡ network_sizes list.now) × (sums.old ≡ replicate most_flows 0) }
    ensures { Gathered (network_of list.now) (pair_of (network_of list.now)) (network_of list.now).tunnels sums.new }
{
    for t in 0..sizes.tunnels {
        let at = sizes.tunnel_at(t);
        let flow = list[at] as usize;
        let old = list[at + Network::OLD];
        let new = list[at + Network::NEW];
        sums[flow] += old + new * PAIR;
    }
}

// Which of a flow's two sums is missed, where one is: the old one (0) before the new one (1), by the second number that the refusal has.
fn missed(sum: u64, rate: u64) -> u64
    ensures { ((sum % 2 ^ 32 ≡ rate → ⊥) → result ≡ 0) × (sum % 2 ^ 32 ≡ rate → result ≡ 1) }
{
    if sum % PAIR != rate { 0 } else { 1 }
}

// The first flow of which a sum is missed, and which of the two that is.
#[derive(Clone, Copy)]
struct MissedSum {
    flow: usize,
    second: u64,
}

// The first sum that misses its flow's rate or next: lowest flow, old before new. `last` is which number of a flow is its next. The
// refusal is put together of it after the loop: built inside, it makes the function too large for the compiler to put it into its callers.
fn first_missed(list: &[u64], sizes: Network, last: usize, sums: &[u64]) -> Option<MissedSum>
    requires network_ranges { NetworkRanges list.now × (sizes ≡ network_sizes list.now) × (last ≡ next_in sizes.edition) }
    requires gathered { Gathered (network_of list.now) (pair_of (network_of list.now)) (network_of list.now).tunnels sums.now }
    ensures { result ≡ missed_of (missed_rate (network_of list.now)) }
{
    for f in 0..sizes.flows {
        let at = sizes.flow_at(f);
        let rate = list[at + Network::RATE];
        let next = list[at + last];
        let sum = sums[f];
        if sum != rate + next * PAIR {
            return Some(MissedSum {
                flow: f,
                second: missed(sum, rate),
            });
        }
    }
    None
}

// Judges the sums of a network's list whose numbers are judged already. The sizes are handed over, and handed on to the list that is
// judged good, and the edition is looked at once, here: so the function stays small enough for the compiler to put it into its callers.
pub fn add_up<'a>(list: &'a [u64], sizes: Network) -> Result<NetworkList<'a>, Refusal>
    requires { NetworkRanges list.now × (sizes ≡ network_sizes list.now) }
    ensures { result ≡ judged (add_up Form.Network list.now) }
{
    let mut sums = [0u64; FLOWS];
    let last = sizes.next();
    gather(list, sizes, &mut sums);
    match first_missed(list, sizes, last, &sums) {
        None => Ok(NetworkList::with_sizes(list, sizes)),
        Some(first) => Err(Refusal {
            cause: Cause::MissedRate,
            place: first.flow as u64,
            second: first.second,
        }),
    }
}

// The plan list of an even plan.
ghost use Rattle.std.specs.Prelude.{◌≡◌, ◌++◌, ◌≤◌, length, drop};
ghost use Rattle.model.specs.Limits.{most_steps, most_tunnels};
ghost use Rattle.model.specs.Even.{even_row};
ghost use Rattle.model.specs.Listed.{listed};
ghost use Rattle.lists.specs.Lists.{network_of};
ghost use Rattle.planner.specs.Planned.{even_list};
ghost use Rattle.planner.specs.Sums.{even_sizes};

use lists::PlanSizes;
use lists::judged::NetworkList;

// The sizes of the even plan of q steps.
pub fn plan_sizes(network: &NetworkList<'_>, q: u64) -> PlanSizes
    ensures value { result ≡ even_sizes (network_of network.now) q }
    ensures most { result.tunnels ≤ most_tunnels }
{
    PlanSizes {
        parts: q,
        steps: q as usize,
        tunnels: network.tunnels(),
    }
}

// Writes row a of the even plan of q steps.
fn write_row(network: &NetworkList<'_>, q: u64, a: u64, row: &mut [u64])
    requires { (a ≤ q) × (q ≤ most_steps) × (length row.old ≡ (network_of network.now).tunnels) }
    ensures { row.new ≡ listed (network_of network.now).tunnels (even_row (network_of network.now) q a) }
{
    let rest = q - a;
    for (t, amount) in row.iter_mut().enumerate() {
        *amount = rest * network.old(t) + a * network.new_amount(t);
    }
}

// Writes the plan list of the even plan of q steps, which has room.
pub fn write_plan(network: &NetworkList<'_>, q: u64, out: &mut [u64])
    requires { (1 ≤ q) × (q ≤ most_steps) × (length (even_list (network_of network.now) q) ≤ length out.old) }
    ensures { out.new ≡ even_list (network_of network.now) q ++ drop (length (even_list (network_of network.now) q)) out.old }
{
    let sizes = plan_sizes(network, q);
    let tunnels = sizes.tunnels;
    out[0] = 1;
    out[1] = q;
    out[2] = q;
    out[3] = tunnels as u64;
    let mut at = sizes.row_at(1);
    for a in 1..q {
        write_row(network, q, a, &mut out[at..at + tunnels]);
        at += tunnels;
    }
}

// A plan of a network that is looked at with a lag, and the loads of its blocks of steps.
ghost use Rattle.std.specs.Prelude.{◌≡◌, true, false, suc, ◌-◌, ◌≤◌};
ghost use Rattle.model.specs.Limits.{most_lag};
ghost use Rattle.model.specs.Rule.{by_flow};
ghost use Rattle.lists.specs.Lists.{network_of, plan_sizes, plan_of};
ghost use Rattle.overloads.specs.Blocks.{times_widened, block_steps, Gathers, InBlock};

use amounts::pair::Pair;
use amounts::rows;
use loads::amounts::Amounts;
use loads::gather::{LOADS, ROWS};
use loads::{flows, gather, windows};

#[derive(Drop)]
pub(crate) struct Search<'a, 'b> {
    pub(crate) lag: u64,
    pub(crate) pair: &'a Pair<'b>,
    ghost lag_in: { (1 ≤ lag) × (lag ≤ most_lag) },
}

impl<'a, 'b> Search<'a, 'b> {
    // How many times the amounts of a block are widened, to the largest of each window. Those of a tunnel are the larger of two
    // rows from the start.
    fn times_widened(&self) -> usize
        ensures { result ≡ times_widened self.now.lag (network_of self.now.pair.now.network) (plan_of self.now.pair.now.plan) }
    {
        let reach = self.pair.reach(self.lag);
        let whole = self.pair.network().by_flow();
        if whole { reach } else { reach - 1 }
    }

    // How many steps are looked at.
    pub(crate) fn steps(&self) -> usize
        ensures { result ≡ suc ((plan_sizes self.now.pair.now.plan).steps - self.now.lag) }
    {
        self.pair.plan().steps() - self.pair.reach(self.lag) + 1
    }

    // How many steps of a block have whole windows in it.
    pub(crate) fn block_steps(&self) -> usize
        ensures { result ≡ block_steps self.now.lag (network_of self.now.pair.now.network) (plan_of self.now.pair.now.plan) }
    {
        ROWS - self.times_widened()
    }

    // The loads in the block that begins with the step from row i, where each tunnel moves for itself.
    fn tunnel_loads(&self, i: usize, amounts: &mut Amounts, loads: &mut [u64; LOADS])
        requires { (by_flow (network_of self.now.pair.now.network) ≡ false) × (i ≤ (plan_sizes self.now.pair.now.plan).steps) }
        ensures { Gathers self.now.lag (network_of self.now.pair.now.network) (plan_of self.now.pair.now.plan) i loads.new }
    {
        let network = self.pair.network();
        rows::larger_amounts(self.pair, i, amounts);
        windows::widen_all(
            self.times_widened(),
            network.tunnels(),
            &mut amounts.numbers,
        );
        gather::gather_network(network, amounts, loads);
    }

    // And where the switches change a whole flow.
    fn flow_loads(&self, i: usize, amounts: &mut Amounts, loads: &mut [u64; LOADS])
        requires { (by_flow (network_of self.now.pair.now.network) ≡ true) × (i ≤ (plan_sizes self.now.pair.now.plan).steps) }
        ensures { Gathers self.now.lag (network_of self.now.pair.now.network) (plan_of self.now.pair.now.plan) i loads.new }
    {
        rows::row_amounts(self.pair, i, amounts);
        flows::gather_flows(self.pair.network(), self.times_widened(), amounts, loads);
    }

    // The loads in the block of the step from row i, which is step k of it, gathered where the block begins.
    // Two tables and not a struct of both: of two arrays the compiler knows that they do not overlap, and adds vector by vector.
    pub(crate) fn block_loads(
        &self,
        i: usize,
        k: usize,
        amounts: &mut Amounts,
        loads: &mut [u64; LOADS],
    )
        requires { (i ≤ (plan_sizes self.now.pair.now.plan).steps) × InBlock self.now.lag (network_of self.now.pair.now.network) (plan_of self.now.pair.now.plan) i k loads.old }
        ensures { Gathers self.now.lag (network_of self.now.pair.now.network) (plan_of self.now.pair.now.plan) (i - k) loads.new }
    {
        if k != 0 {
            return;
        }
        if self.pair.network().by_flow() {
            self.flow_loads(i, amounts, loads)
        } else {
            self.tunnel_loads(i, amounts, loads)
        }
    }
}

// The tunnels of each flow, chained from the last down, so that none is looked at for another flow.
ghost use Rattle.std.specs.Prelude.{◌≡◌, ◌<◌};
ghost use Rattle.model.specs.Limits.{most_flows, most_tunnels};
ghost use Rattle.lists.specs.Lists.{network_sizes, network_of};
ghost use Rattle.lists.specs.Good.{GoodNetwork};
ghost use Rattle.link_sums.specs.Tables.{of_flow, LastOf};

use lists::Network;
use lists::judged::NetworkList;
use std::marker::Model;

const FLOWS: usize = Network::FLOWS as usize;

const TUNNELS: usize = Network::TUNNELS as usize;

// A network, with the last tunnel of each flow, and the one of the same flow before each tunnel. In a clause it is the network's list.
#[derive(Drop)]
pub struct Chains<'a> {
    network: &'a NetworkList<'a>,
    lasts: [Option<u8>; FLOWS],
    priors: [Option<u8>; TUNNELS],
}

impl<'a> Model for Chains<'a> {
    ghost use Rattle.std.specs.Prelude.{ℕ, List};
    ghost use Rattle.lists.specs.Lists.{network_of};
    ghost use Rattle.lists.specs.Good.{GoodNetwork};
    ghost use Rattle.link_sums.specs.Tables.{Chained};

    ghost Value = { List ℕ };

    ghost view = { λ c. c.network.now };

    ghost invariant = { λ c. GoodNetwork c.network.now × Chained (network_of c.network.now) (network_of c.network.now).tunnels c.lasts c.priors };
}

impl<'a> Chains<'a> {
    pub fn of(network: &'a NetworkList<'a>) -> Chains<'a>
        ensures { result ≡ network.entry.now }
    {
        let mut lasts = [None; FLOWS];
        let mut priors = [None; TUNNELS];
        for t in 0..network.tunnels() {
            let flow = network.flow(t);
            priors[t] = lasts[flow];
            lasts[flow] = Some(t as u8);
        }
        Chains {
            network,
            lasts,
            priors,
        }
    }

    pub fn network(&self) -> &'a NetworkList<'a>
        ensures value { result.now ≡ self.now }
        ensures good { GoodNetwork self.now }
    {
        self.network
    }

    pub fn last(&self, flow: usize) -> Option<usize>
        requires { flow < most_flows }
        ensures { LastOf (of_flow (network_of self.now) flow) (network_of self.now).tunnels result }
    {
        self.lasts[flow].map(usize::from)
    }

    pub fn prior(&self, t: usize) -> Option<usize>
        requires { (t < (network_sizes self.now).tunnels) × (t < most_tunnels) }
        ensures { LastOf (of_flow (network_of self.now) ((network_of self.now).flow t)) t result }
    {
        self.priors[t].map(usize::from)
    }
}

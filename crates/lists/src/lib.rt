//! The types that all operations share: the network type, whose constants are the limits and whose value says where a
//! network's numbers stand in its list and, by `Position`, which of them stands where; the types that do the same for plans
//! and for rule tables; and the answers.
#![tactic(auto)]

ghost use Rattle.std.specs.Prelude.{◌≡◌, ◌≤◌, ◌<◌, length};
ghost use Rattle.model.specs.Outcome.{is_lag};
ghost use Rattle.model.specs.Rule.{by_flow};
ghost use Rattle.model.specs.Limits.{most_steps, most_tunnels, most_switches};
ghost use Rattle.lists.specs.Lists.{has_next, has_held, head_size, per_link, per_flow, next_in, network_sizes, link_at, flow_at, tunnel_at, held_of, network_of, plan_sizes, row_at, table_sizes, room_at, rule_at};
ghost use Rattle.lists.specs.Good.{Limited, StandsAt, NetworkRanges};
ghost use Rattle.lists.specs.Refusals.{refused_with, done_with, plan_with};

use refusal::Refusal;

pub mod judged;
pub mod refusal;

// A network's edition, and how many links, flows and tunnels it has.
#[derive(Clone, Copy)]
pub struct Network {
    pub edition: u64,
    pub links: usize,
    pub flows: usize,
    pub tunnels: usize,
}

impl Network {
    pub const LINKS: u64 = 64;

    pub const FLOWS: u64 = 32;

    pub const TUNNELS: u64 = 96;

    pub const STEPS: u64 = 50;

    // The largest lag: how many rows after the first a tunnel may show while a step goes on.
    pub const LAG: u64 = 4;

    // The largest amount, in Mbit/s.
    pub const AMOUNT: u64 = 10_000_000;

    // The newest edition, and the first in which a flow has its next rate.
    pub const EDITION: u64 = 3;

    pub const NEXT_SINCE: u64 = 2;

    // The first in which it is said whether switches change a whole flow, and what is held of each link.
    pub const HELD_SINCE: u64 = 3;

    // The least and the largest scratch, and overrun if it is not 0, in thousandths.
    pub const SHARE_LOW: u64 = 20;

    pub const SHARE_HIGH: u64 = 500;

    // How many numbers the head has since the unit is among them, how many of them, the last, are counts, and which are the overrun and the unit.
    pub const HEAD: usize = 7;

    pub const COUNTS: usize = 3;

    pub const OVERRUN: usize = 2;

    pub const UNIT: usize = 3;

    // How many numbers a link has since something may be held of it, and which of them, after the capacity, says how much.
    pub const PER_LINK: usize = 2;

    pub const HELD: usize = 1;

    // How many numbers a flow has since it has its next rate, which is the last, and which of them, after the class, is the rate.
    pub const PER_FLOW: usize = 3;

    pub const RATE: usize = 1;

    // How many numbers a tunnel has, and which of them, after the flow, are the link set, the old and the new amount.
    pub const PER_TUNNEL: usize = 4;

    pub const VIA: usize = 1;

    pub const OLD: usize = 2;

    pub const NEW: usize = 3;

    // The most numbers that a network's list has.
    pub const NUMBERS: usize = Self::HEAD
        + Self::PER_LINK * Self::LINKS as usize
        + Self::PER_FLOW * Self::FLOWS as usize
        + Self::PER_TUNNEL * Self::TUNNELS as usize;

    // Is the number a lag?
    pub fn is_lag(lag: u64) -> bool
        ensures { result ≡ is_lag lag }
    {
        1 <= lag && lag <= Self::LAG
    }

    // The sizes of the network that a list holds, which has a head.
    pub fn of(list: &[u64]) -> Network
        requires { link_at (network_sizes list.now) 0 ≤ length list.now }
        ensures { result ≡ network_sizes list.now }
    {
        let edition = list[0];
        let head = Self::head(edition);
        Network {
            edition,
            links: list[head - Self::COUNTS] as usize,
            flows: list[head - 2] as usize,
            tunnels: list[head - 1] as usize,
        }
    }

    // How many numbers the head has.
    pub fn head(edition: u64) -> usize
        ensures { result ≡ head_size edition }
    {
        if Self::HELD_SINCE <= edition {
            Self::HEAD
        } else {
            Self::HEAD - 1
        }
    }

    // How many numbers a link has.
    pub fn per_link(self) -> usize
        ensures { result ≡ per_link self.edition }
    {
        if self.has_held() {
            Self::PER_LINK
        } else {
            Self::PER_LINK - 1
        }
    }

    // Whether each link's capacity is followed by what is held of it.
    pub fn has_held(self) -> bool
        ensures { result ≡ has_held self.edition }
    {
        Self::HELD_SINCE <= self.edition
    }

    // Do the switches of the network that a list holds, which has a head, change a whole flow in one operation?
    pub fn by_flow(list: &[u64]) -> bool
        requires { link_at (network_sizes list.now) 0 ≤ length list.now }
        ensures { result ≡ by_flow (network_of list.now) }
    {
        if Self::HELD_SINCE <= list[0] {
            return list[Self::UNIT] == 1;
        }
        false
    }

    // What is held of link k of the network that a list holds: 0 where nothing is said of it.
    pub fn held(self, list: &[u64], k: usize) -> u64
        requires { (self ≡ network_sizes list.now) × NetworkRanges list.now × (k < self.links) }
        ensures { result ≡ held_of list.now k }
    {
        if self.has_held() {
            return list[self.link_at(k) + Self::HELD];
        }
        0
    }

    // Whether a flow's rate is followed by the next.
    pub fn has_next(self) -> bool
        ensures { result ≡ has_next self.edition }
    {
        Self::NEXT_SINCE <= self.edition
    }

    // How many numbers a flow has.
    pub fn per_flow(self) -> usize
        ensures { result ≡ per_flow self.edition }
    {
        if self.has_next() {
            Self::PER_FLOW
        } else {
            Self::PER_FLOW - 1
        }
    }

    // Which number of a flow is its next, the last; in edition 1, its rate.
    pub fn next(self) -> usize
        ensures { result ≡ next_in self.edition }
    {
        self.per_flow() - 1
    }

    // Where the lines of link k begin; past the last link, where those of flow 0 begin.
    pub fn link_at(self, k: usize) -> usize
        requires { Limited self × (k ≤ self.links) }
        ensures { result ≡ link_at self k }
    {
        Self::head(self.edition) + self.per_link() * k
    }

    // Where the lines of flow f begin; past the last flow, where those of tunnel 0 begin.
    pub fn flow_at(self, f: usize) -> usize
        requires { Limited self × (f ≤ self.flows) }
        ensures { result ≡ flow_at self f }
    {
        self.link_at(self.links) + self.per_flow() * f
    }

    // Where the four lines of tunnel t begin; past the last tunnel, how many lines there are.
    pub fn tunnel_at(self, t: usize) -> usize
        requires { Limited self × (t ≤ self.tunnels) }
        ensures { result ≡ tunnel_at self t }
    {
        self.flow_at(self.flows) + Self::PER_TUNNEL * t
    }

    // Which number stands at position i, which is past the head.
    pub fn position(self, i: usize) -> Position
        requires { Limited self × (link_at self 0 ≤ i) }
        ensures { StandsAt self i result }
    {
        let n = i - Self::head(self.edition);
        let per_link = self.per_link();
        if n < per_link * self.links {
            return Position::Link(n / per_link, n % per_link);
        }
        let m = n - per_link * self.links;
        let per_flow = self.per_flow();
        if m < per_flow * self.flows {
            return Position::Flow(m / per_flow, m % per_flow);
        }
        let k = m - per_flow * self.flows;
        if k / Self::PER_TUNNEL < self.tunnels {
            return Position::Tunnel(k / Self::PER_TUNNEL, k % Self::PER_TUNNEL);
        }
        Position::Past
    }
}

// Which of a network's numbers stands at a position after the head: line j of a link, of a flow or of a tunnel, or none.
#[derive(Clone, Copy)]
pub enum Position {
    Link(usize, usize),
    Flow(usize, usize),
    Tunnel(usize, usize),
    Past,
}

// The numbers of a plan's head: in how many parts its amounts are counted, how many steps it has, and for how many tunnels.
#[derive(Clone, Copy)]
pub struct PlanSizes {
    pub parts: u64,
    pub steps: usize,
    pub tunnels: usize,
}

impl PlanSizes {
    pub const HEAD: usize = 4;

    // The most numbers that a plan's list has.
    pub const NUMBERS: usize = Self::HEAD
        + (Network::STEPS as usize - 1) * Network::TUNNELS as usize;

    // The sizes of the plan that a list holds, which has a head.
    pub fn of(list: &[u64]) -> PlanSizes
        requires { row_at (plan_sizes list.now) 1 ≤ length list.now }
        ensures { result ≡ plan_sizes list.now }
    {
        PlanSizes {
            parts: list[1],
            steps: list[2] as usize,
            tunnels: list[3] as usize,
        }
    }

    // Where row a begins; for the last row, which is not listed, how many lines there are.
    pub fn row_at(self, a: usize) -> usize
        requires { (1 ≤ a) × (a ≤ most_steps) × (self.tunnels ≤ most_tunnels) }
        ensures { result ≡ row_at self a }
    {
        Self::HEAD + (a - 1) * self.tunnels
    }
}

// How many switches and tunnels rule tables have.
#[derive(Clone, Copy)]
pub struct RuleTables {
    pub switches: usize,
    pub tunnels: usize,
}

impl RuleTables {
    pub const SWITCHES: u64 = 64;

    pub const TUNNELS: u64 = Network::TUNNELS;

    // The most rules that a switch has room for.
    pub const ROOM: u64 = 65_535;

    // The least and the largest slack, in thousandths.
    pub const SLACK_LOW: u64 = 20;

    pub const SLACK_HIGH: u64 = 500;

    // What becomes of a tunnel's rules.
    pub const KEEP: u64 = 1;

    pub const ADD: u64 = 2;

    pub const REMOVE: u64 = 3;

    // How many numbers the head has, before those of the switches, and which of them is the slack.
    pub const HEAD: usize = 4;

    pub const SLACK: usize = 1;

    // How many numbers a tunnel has, and which of them, after the switch set, is the kind.
    pub const PER_TUNNEL: usize = 2;

    pub const KIND: usize = 1;

    // The most numbers that a list of rule tables has.
    pub const NUMBERS: usize = Self::HEAD
        + Self::SWITCHES as usize
        + Self::PER_TUNNEL * Self::TUNNELS as usize;

    // The sizes of the rule tables that a list holds, which has a head.
    pub fn of(list: &[u64]) -> RuleTables
        requires { room_at (table_sizes list.now) 0 ≤ length list.now }
        ensures { result ≡ table_sizes list.now }
    {
        RuleTables {
            switches: list[2] as usize,
            tunnels: list[3] as usize,
        }
    }

    // Where the line of switch s stands; past the last switch, where those of tunnel 0 begin.
    pub fn room_at(self, s: usize) -> usize
        requires { s ≤ most_switches }
        ensures { result ≡ room_at self s }
    {
        Self::HEAD + s
    }

    // Where the two lines of tunnel t begin; past the last tunnel, how many lines there are.
    pub fn rule_at(self, t: usize) -> usize
        requires { (self.switches ≤ most_switches) × (t ≤ most_tunnels) }
        ensures { result ≡ rule_at self t }
    {
        self.room_at(self.switches) + Self::PER_TUNNEL * t
    }
}

// Done and a plan carry the length written.
#[derive(Clone, Copy)]
pub enum Answer {
    Done(usize),
    Plan(usize),
    Refused {
        number: u64,
        place: u64,
        second: u64,
    },
}

impl Answer {
    // The answer of an operation that gives no plan.
    pub fn done(outcome: Result<usize, Refusal>) -> Answer
        ensures { result ≡ done_with outcome }
    {
        match outcome {
            Ok(length) => Answer::Done(length),
            Err(refusal) => Answer::from(refusal),
        }
    }

    // And of the one that does.
    pub fn plan(outcome: Result<usize, Refusal>) -> Answer
        ensures { result ≡ plan_with outcome }
    {
        match outcome {
            Ok(length) => Answer::Plan(length),
            Err(refusal) => Answer::from(refusal),
        }
    }
}

impl From<Refusal> for Answer {
    ghost from_gives = { λ e a. a ≡ refused_with e };

    fn from(refusal: Refusal) -> Answer {
        Answer::Refused {
            number: refusal.cause.number(),
            place: refusal.place,
            second: refusal.second,
        }
    }
}

// Whether a list is in the form of a network, of a plan or of rule tables, by loops over its parts. No refusal is told: where the answer is no, the
// judge goes through the numbers one by one for its place.
ghost use Rattle.std.specs.Prelude.{◌≡◌, ◌≤◌, length, get_or, None};
ghost use Rattle.lists.specs.Lists.{at, network_sizes, table_sizes};
ghost use Rattle.lists.specs.Good.{Sized, LinksIn, FlowsIn, TunnelsIn};
ghost use Rattle.forms.specs.Form.{Whole};
ghost use Rattle.judges.specs.Ranges.{Decides, head_lines, HeadIn, NetworkHead, AmountsIn, TablesSized, RoomsIn, RulesIn};

use forms::form;
use forms::form::{Form, Line};
use lists::{Network, PlanSizes, RuleTables};

// The line at place n of a form's head.
fn head_line(form: Form, edition: u64, n: usize) -> Option<Line>
    ensures { result ≡ get_or (head_lines form edition) n None }
{
    match form {
        Form::Network => form::network_head(edition, n),
        Form::Plan => form::plan_head(n),
        Form::Rules => form::rules_head(n),
    }
}

// Are the first numbers those of the form's head, in an edition that has the same lines as the list's?
fn head_in(form: Form, edition: u64, list: &[u64], count: usize) -> bool
    requires { (count ≤ length list.now) × (head_lines form edition ≡ head_lines form (at list.now 0)) }
    ensures { Decides result (HeadIn form list.now count) }
{
    for i in 0..count {
        let Some(line) = head_line(form, edition, i) else {
            return false;
        };
        if !line.range.admits(list[i]) {
            return false;
        }
    }
    true
}

// Has the list a network's head, in its edition? The compiler has an edition and a length at hand in either call, and no loop is left.
fn network_head_in(list: &[u64]) -> bool
    ensures { Decides result (NetworkHead list.now) }
{
    if list.len() < Network::HEAD - 1 {
        return false;
    }
    if list[0] < Network::HELD_SINCE {
        return head_in(Form::Network, 0, list, Network::HEAD - 1);
    }
    if list.len() < Network::HEAD {
        return false;
    }
    head_in(Form::Network, Network::HELD_SINCE, list, Network::HEAD)
}

// Are the numbers of each link in their ranges? The last says what is held, or is the capacity itself. Here and below the loops go by the number
// of a link, a flow, a tunnel or a switch, since from it follows where its numbers stand; the list is not judged yet.
fn links_in(list: &[u64], sizes: Network) -> bool
    requires { Sized list.now × (sizes ≡ network_sizes list.now) }
    ensures { Decides result (LinksIn list.now sizes.links) }
{
    let last = sizes.per_link() - 1;
    for k in 0..sizes.links {
        let at = sizes.link_at(k);
        if Network::AMOUNT < list[at] {
            return false;
        }
        if list[at] < list[at + last] {
            return false;
        }
    }
    true
}

// The same for the numbers of each flow.
fn flows_in(list: &[u64], sizes: Network) -> bool
    requires { Sized list.now × (sizes ≡ network_sizes list.now) }
    ensures { Decides result (FlowsIn list.now sizes.flows) }
{
    let next = sizes.next();
    for f in 0..sizes.flows {
        let at = sizes.flow_at(f);
        if 2 < list[at] {
            return false;
        }
        if Network::AMOUNT < list[at + Network::RATE] {
            return false;
        }
        if Network::AMOUNT < list[at + next] {
            return false;
        }
    }
    true
}

// The same for the numbers of each tunnel.
fn tunnels_in(list: &[u64], sizes: Network) -> bool
    requires { Sized list.now × (sizes ≡ network_sizes list.now) }
    ensures { Decides result (TunnelsIn list.now sizes.tunnels) }
{
    let links = sizes.links as u64;
    for t in 0..sizes.tunnels {
        let at = sizes.tunnel_at(t);
        let flow = list[at] as usize;
        if sizes.flows <= flow {
            return false;
        }
        if !form::is_set(list[at + Network::VIA], links) {
            return false;
        }
        if Network::AMOUNT < list[at + Network::OLD] {
            return false;
        }
        if Network::AMOUNT < list[at + Network::NEW] {
            return false;
        }
    }
    true
}

// Is the list long enough for its links, flows and tunnels, and no longer, and is each of their numbers in its range?
fn body_in(list: &[u64]) -> bool
    requires { NetworkHead list.now }
    ensures { Decides result (Whole Form.Network list.now) }
{
    let sizes = Network::of(list);
    list.len() == sizes.tunnel_at(sizes.tunnels)
        && links_in(list, sizes)
        && flows_in(list, sizes)
        && tunnels_in(list, sizes)
}

pub(crate) fn is_network(list: &[u64]) -> bool
    ensures { Decides result (Whole Form.Network list.now) }
{
    network_head_in(list) && body_in(list)
}

// Is each number of a plan after its head at most `high`? An index: the part after the head would have to be known to be there.
fn amounts_in(list: &[u64], high: u64) -> bool
    ensures { Decides result (AmountsIn list.now high (length list.now)) }
{
    for i in PlanSizes::HEAD..list.len() {
        if high < list[i] {
            return false;
        }
    }
    true
}

// Is the list long enough for its rows, and no longer, and is each of their numbers in its range?
fn rows_in(list: &[u64]) -> bool
    requires { (length (head_lines Form.Plan (at list.now 0)) ≤ length list.now) × HeadIn Form.Plan list.now (length (head_lines Form.Plan (at list.now 0))) }
    ensures { Decides result (Whole Form.Plan list.now) }
{
    let sizes = PlanSizes::of(list);
    list.len() == sizes.row_at(sizes.steps) && amounts_in(list, Network::AMOUNT * sizes.parts)
}

pub(crate) fn is_plan(list: &[u64]) -> bool
    ensures { Decides result (Whole Form.Plan list.now) }
{
    PlanSizes::HEAD <= list.len() && head_in(Form::Plan, 0, list, PlanSizes::HEAD) && rows_in(list)
}

// Is the room of each switch in its range?
fn rooms_in(list: &[u64], sizes: RuleTables) -> bool
    requires { TablesSized list.now × (sizes ≡ table_sizes list.now) }
    ensures { Decides result (RoomsIn list.now sizes.switches) }
{
    for s in 0..sizes.switches {
        let at = sizes.room_at(s);
        if RuleTables::ROOM < list[at] {
            return false;
        }
    }
    true
}

// The same for the numbers of each tunnel.
fn rules_in(list: &[u64], sizes: RuleTables) -> bool
    requires { TablesSized list.now × (sizes ≡ table_sizes list.now) }
    ensures { Decides result (RulesIn list.now sizes.tunnels) }
{
    let switches = sizes.switches as u64;
    for t in 0..sizes.tunnels {
        let at = sizes.rule_at(t);
        if !form::is_set(list[at], switches) {
            return false;
        }
        if list[at + RuleTables::KIND] < RuleTables::KEEP {
            return false;
        }
        if RuleTables::REMOVE < list[at + RuleTables::KIND] {
            return false;
        }
    }
    true
}

// Is the list long enough for its switches and tunnels, and no longer, and is each of their numbers in its range?
fn tables_in(list: &[u64]) -> bool
    requires { (length (head_lines Form.Rules (at list.now 0)) ≤ length list.now) × HeadIn Form.Rules list.now (length (head_lines Form.Rules (at list.now 0))) }
    ensures { Decides result (Whole Form.Rules list.now) }
{
    let sizes = RuleTables::of(list);
    list.len() == sizes.rule_at(sizes.tunnels) && rooms_in(list, sizes) && rules_in(list, sizes)
}

pub(crate) fn is_rules(list: &[u64]) -> bool
    ensures { Decides result (Whole Form.Rules list.now) }
{
    RuleTables::HEAD <= list.len()
        && head_in(Form::Rules, 0, list, RuleTables::HEAD)
        && tables_in(list)
}

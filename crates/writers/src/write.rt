// The writers: a list is judged, measured, and written where there is room for it. The lines of a form stand in runs of alike lines,
// each of which is written by a loop of its own, so that the line's key is known there.
ghost use Rattle.std.specs.Prelude.{◌≡◌, ◌+◌, ◌*◌, ◌-◌, ◌≤◌, ◌<◌, length, get_or};
ghost use Rattle.lists.specs.Answers.{with_room, lent};
ghost use Rattle.lists.specs.Refusals.{counted};
ghost use Rattle.lists.specs.Lists.{head_size, per_link, per_flow, network_sizes, link_at, flow_at, tunnel_at};
ghost use Rattle.forms.specs.Form.{Whole, count_lines, tunnel_lines, plan_lines};
ghost use Rattle.forms.specs.Write.{line_of, render};
ghost use Rattle.lines.specs.Puts.{Puts};
ghost use Rattle.lengths.specs.Lines.{lines_from, Writable};
ghost use Rattle.forms.specs.Named.{write_network, write_plan, write_rules};

use forms::form;
use forms::form::{Form, Line};
use judges::judge;
use lists::judged::{NetworkList, PlanList};
use lists::refusal::Refusal;
use lists::{Network, PlanSizes};

// Puts the lines of a network's counts, the last of its head. This and the functions below answer the place past what they put.
fn put_counts(out: &mut [u8], at: usize, network: &NetworkList<'_>) -> usize
    requires { at + length (lines_from Form.Network network.now (head_size (get_or network.now 0 0) - length count_lines) (length count_lines)) ≤ length out.old }
    ensures { Puts (lines_from Form.Network network.now (head_size (get_or network.now 0 0) - length count_lines) (length count_lines)) at out.old out.new result }
{
    let flows = lines::put_line(out, at, b"links=", network.links() as u64);
    let tunnels = lines::put_line(out, flows, b"flows=", network.flows() as u64);
    lines::put_line(out, tunnels, b"tunnels=", network.tunnels() as u64)
}

// Puts the lines of a network that stand before those of its links.
fn put_network_head(out: &mut [u8], network: &NetworkList<'_>) -> usize
    requires whole { Whole Form.Network network.now }
    requires room { length (lines_from Form.Network network.now 0 (head_size (get_or network.now 0 0))) ≤ length out.old }
    ensures { Puts (lines_from Form.Network network.now 0 (head_size (get_or network.now 0 0))) 0 out.old out.new result }
{
    let list = network.numbers();
    let scratch = lines::put_line(out, 0, b"net=", list[0]);
    let overrun = lines::put_line(out, scratch, b"scratch=", list[1]);
    let unit = lines::put_line(out, overrun, b"overrun=", list[2]);
    if list[0] < Network::HELD_SINCE {
        return put_counts(out, unit, network);
    }
    let links = lines::put_line(out, unit, b"unit=", list[Network::UNIT]);
    put_counts(out, links, network)
}

// Puts the lines of link k.
fn put_link(out: &mut [u8], at: usize, network: &NetworkList<'_>, k: usize) -> usize
    requires link { k < (network_sizes network.now).links }
    requires room { at + length (lines_from Form.Network network.now (link_at (network_sizes network.now) k) (per_link (network_sizes network.now).edition)) ≤ length out.old }
    ensures { Puts (lines_from Form.Network network.now (link_at (network_sizes network.now) k) (per_link (network_sizes network.now).edition)) at out.old out.new result }
{
    let list = network.numbers();
    let sizes = network.sizes();
    let i = sizes.link_at(k);
    let held = lines::put_line(out, at, b"cap=", list[i]);
    if sizes.has_held() {
        lines::put_line(out, held, b"held=", list[i + Network::HELD])
    } else {
        held
    }
}

// Puts the lines of a network's links. This and the two like it have the loop in common and nothing else: another contract and another law each.
fn put_links(out: &mut [u8], at: usize, network: &NetworkList<'_>) -> usize
    requires { at + length (lines_from Form.Network network.now (link_at (network_sizes network.now) 0) (per_link (network_sizes network.now).edition * (network_sizes network.now).links)) ≤ length out.old }
    ensures { Puts (lines_from Form.Network network.now (link_at (network_sizes network.now) 0) (per_link (network_sizes network.now).edition * (network_sizes network.now).links)) at out.old out.new result }
{
    let mut p = at;
    for k in 0..network.links() {
        p = put_link(out, p, network, k);
    }
    p
}

// Puts the lines of flow f.
fn put_flow(out: &mut [u8], at: usize, network: &NetworkList<'_>, f: usize) -> usize
    requires flow { f < (network_sizes network.now).flows }
    requires room { at + length (lines_from Form.Network network.now (flow_at (network_sizes network.now) f) (per_flow (network_sizes network.now).edition)) ≤ length out.old }
    ensures { Puts (lines_from Form.Network network.now (flow_at (network_sizes network.now) f) (per_flow (network_sizes network.now).edition)) at out.old out.new result }
{
    let sizes = network.sizes();
    let rate = lines::put_line(out, at, b"class=", network.class(f));
    let next = lines::put_line(out, rate, b"rate=", network.rate(f));
    if sizes.has_next() {
        lines::put_line(out, next, b"next=", network.next(f))
    } else {
        next
    }
}

// Puts the lines of a network's flows.
fn put_flows(out: &mut [u8], at: usize, network: &NetworkList<'_>) -> usize
    requires { at + length (lines_from Form.Network network.now (flow_at (network_sizes network.now) 0) (per_flow (network_sizes network.now).edition * (network_sizes network.now).flows)) ≤ length out.old }
    ensures { Puts (lines_from Form.Network network.now (flow_at (network_sizes network.now) 0) (per_flow (network_sizes network.now).edition * (network_sizes network.now).flows)) at out.old out.new result }
{
    let mut p = at;
    for f in 0..network.flows() {
        p = put_flow(out, p, network, f);
    }
    p
}

// Puts the lines of a network's tunnels.
fn put_tunnels(out: &mut [u8], at: usize, network: &NetworkList<'_>) -> usize
    requires { at + length (lines_from Form.Network network.now (tunnel_at (network_sizes network.now) 0) (length (tunnel_lines (network_sizes network.now)) * (network_sizes network.now).tunnels)) ≤ length out.old }
    ensures { Puts (lines_from Form.Network network.now (tunnel_at (network_sizes network.now) 0) (length (tunnel_lines (network_sizes network.now)) * (network_sizes network.now).tunnels)) at out.old out.new result }
{
    let mut p = at;
    for t in 0..network.tunnels() {
        let via = lines::put_line(out, p, b"flow=", network.flow(t) as u64);
        let old = lines::put_set_line(out, via, b"via=", network.via(t));
        let new = lines::put_line(out, old, b"old=", network.old(t));
        p = lines::put_line(out, new, b"new=", network.new_amount(t));
    }
    p
}

// Puts a network.
fn put_network(out: &mut [u8], network: &NetworkList<'_>) -> usize
    requires whole { Whole Form.Network network.now }
    requires room { length (render Form.Network network.now) ≤ length out.old }
    ensures { Puts (render Form.Network network.now) 0 out.old out.new result }
{
    let links = put_network_head(out, network);
    let flows = put_links(out, links, network);
    let tunnels = put_flows(out, flows, network);
    put_tunnels(out, tunnels, network)
}

// Puts the lines of a plan that stand before its rows.
fn put_plan_head(out: &mut [u8], plan: &PlanList<'_>) -> usize
    requires { length (lines_from Form.Plan plan.now 0 (length plan_lines)) ≤ length out.old }
    ensures { Puts (lines_from Form.Plan plan.now 0 (length plan_lines)) 0 out.old out.new result }
{
    let list = plan.numbers();
    let parts = lines::put_line(out, 0, b"plan=", list[0]);
    let steps = lines::put_line(out, parts, b"parts=", list[1]);
    let tunnels = lines::put_line(out, steps, b"steps=", list[2]);
    lines::put_line(out, tunnels, b"tunnels=", list[3])
}

// Puts a plan. The key and the value of a row's number are put by two calls, and not by `put_line`, so that the compiler sees a second
// caller of `put_value`, leaves that a function by itself, and then has the key's bytes at hand wherever `put_line` is called.
fn put_plan(out: &mut [u8], plan: &PlanList<'_>) -> usize
    requires { length (render Form.Plan plan.now) ≤ length out.old }
    ensures { Puts (render Form.Plan plan.now) 0 out.old out.new result }
{
    let list = plan.numbers();
    let mut p = put_plan_head(out, plan);
    for &amount in &list[PlanSizes::HEAD..] {
        let from = lines::put(out, p, b"at=");
        p = lines::put_value(out, from, amount);
    }
    p
}

// Puts a number's line, by what the form has there.
fn put_field(out: &mut [u8], at: usize, line: Option<Line>, v: u64) -> usize
    requires writable { Writable line v }
    requires room { at + length (line_of line v) ≤ length out.old }
    ensures { Puts (line_of line v) at out.old out.new result }
{
    let Some(line) = line else {
        return at;
    };
    if line.range.is_hex() {
        lines::put_set_line(out, at, line.key.text(), v)
    } else {
        lines::put_line(out, at, line.key.text(), v)
    }
}

// Puts rule tables, line by line: their lines are few, and have no loops of their own. Which comes next follows from the numbers before it.
fn put_rules(out: &mut [u8], list: &[u64]) -> usize
    requires whole { Whole Form.Rules list.now }
    requires room { length (render Form.Rules list.now) ≤ length out.old }
    ensures { Puts (render Form.Rules list.now) 0 out.old out.new result }
{
    let mut p: usize = 0;
    for i in 0..list.len() {
        let line = form::rules_field(&list[..i]);
        p = put_field(out, p, line, list[i]);
    }
    p
}

// Writes the list of a network as a text, and gives its length.
pub fn write_network(list: &[u64], out: &mut [u8]) -> Result<usize, Refusal>
    ensures value { result ≡ counted (with_room (length out.old) (write_network list.now)) }
    ensures out_after { out.new ≡ lent (with_room (length out.old) (write_network list.now)) out.old }
{
    let network = judge::judge_network(list)?;
    let network_size = lengths::network_needed(&network, out.len());
    if out.len() < network_size {
        return Err(Refusal::no_room(network_size));
    }
    Ok(put_network(out, &network))
}

// Writes the list of a plan as a text, and gives its length.
pub fn write_plan(list: &[u64], out: &mut [u8]) -> Result<usize, Refusal>
    ensures value { result ≡ counted (with_room (length out.old) (write_plan list.now)) }
    ensures out_after { out.new ≡ lent (with_room (length out.old) (write_plan list.now)) out.old }
{
    let plan = judge::judge_plan(list)?;
    let plan_size = lengths::plan_needed(&plan, out.len());
    if out.len() < plan_size {
        return Err(Refusal::no_room(plan_size));
    }
    Ok(put_plan(out, &plan))
}

// Writes the list of rule tables as a text, and gives its length.
pub fn write_rules(list: &[u64], out: &mut [u8]) -> Result<usize, Refusal>
    ensures value { result ≡ counted (with_room (length out.old) (write_rules list.now)) }
    ensures out_after { out.new ≡ lent (with_room (length out.old) (write_rules list.now)) out.old }
{
    judge::judge_rules(list)?;
    let rules_size = lengths::rules_len(list);
    if out.len() < rules_size {
        return Err(Refusal::no_room(rules_size));
    }
    Ok(put_rules(out, list))
}

//! How many bytes the text of a list has: all that is not a decimal digit, and those. Inner functions of the writers.
#![tactic(auto)]

ghost use Rattle.std.specs.Prelude.{◌≡◌, ℕ, ◌*◌, ◌≤◌, ◌<◌, length, get_or};
ghost use Rattle.lists.specs.Lists.{network_sizes, most_numbers};
ghost use Rattle.forms.specs.Form.{Whole};
ghost use Rattle.forms.specs.Write.{line_of, render};
ghost use Rattle.lengths.specs.Lines.{Writable, Needed, widths_of, tunnel_widths, head_bytes, link_bytes, flow_bytes};

use forms::form;
use forms::form::{Form, Line};
use lists::judged::{NetworkList, PlanList};
use lists::{Network, PlanSizes};

// No valid text is longer, so that none has to be measured where there is so much room.
const BYTES: usize = 65_536;

// How many bytes of the lines are no decimal digit: each line's key, `=` and line feed, and of a `via` line also its 16 digits.
// Of a network's head: net, scratch, overrun, links, flows, tunnels; and unit, where there is one.
const NETWORK_BYTES: usize = 5 + 9 + 9 + 7 + 7 + 9;

const UNIT_BYTES: usize = 6;

// cap; and held, where there is one
const LINK_BYTES: usize = 5;

const HELD_BYTES: usize = 6;

// class, rate; and next, where there is one
const FLOW_BYTES: usize = 7 + 6;

const NEXT_BYTES: usize = 6;

// flow, via, old, new
const TUNNEL_BYTES: usize = 6 + 21 + 5 + 5;

// Of a plan's head: plan, parts, steps, tunnels.
const PLAN_BYTES: usize = 6 + 7 + 7 + 9;

const AT_BYTES: usize = 4;

// How many decimal digits some numbers have together.
fn widths(numbers: &[u64]) -> usize
    requires few { length numbers.now ≤ most_numbers }
    requires small { (i : ℕ) → i < length numbers.now → get_or numbers.now i 0 < 10000000000 }
    ensures { (result ≡ widths_of numbers.now (length numbers.now)) × (result ≤ 10 * length numbers.now) }
{
    let mut sum: usize = 0;
    for &v in numbers {
        sum += lines::width(v);
    }
    sum
}

// How many the tunnels' flows, old and new amounts have. A set has none: its 16 digits are hexadecimal.
fn tunnel_widths(network: &NetworkList<'_>) -> usize
    ensures { (result ≡ tunnel_widths network.now (network_sizes network.now).tunnels) × (result ≤ 30 * (network_sizes network.now).tunnels) }
{
    let mut sum: usize = 0;
    for t in 0..network.tunnels() {
        let flow = lines::width(network.flow(t) as u64);
        let old = lines::width(network.old(t));
        let new = lines::width(network.new_amount(t));
        sum += flow + old + new;
    }
    sum
}

// How many bytes of the head's lines are no decimal digit.
fn head_bytes(sizes: Network) -> usize
    ensures { result ≡ head_bytes sizes.edition }
{
    if sizes.has_held() {
        NETWORK_BYTES + UNIT_BYTES
    } else {
        NETWORK_BYTES
    }
}

// The same of a link's lines.
fn link_bytes(sizes: Network) -> usize
    ensures { result ≡ link_bytes sizes.edition }
{
    if sizes.has_held() {
        LINK_BYTES + HELD_BYTES
    } else {
        LINK_BYTES
    }
}

// The same of a flow's.
fn flow_bytes(sizes: Network) -> usize
    ensures { result ≡ flow_bytes sizes.edition }
{
    if sizes.has_next() {
        FLOW_BYTES + NEXT_BYTES
    } else {
        FLOW_BYTES
    }
}

// How many bytes a network is written as, where that may be more than the room; else a number within it.
pub fn network_needed(network: &NetworkList<'_>, room: usize) -> usize
    requires { Whole Form.Network network.now }
    ensures { Needed (length (render Form.Network network.now)) room result }
{
    if BYTES <= room {
        return 0;
    }
    let sizes = network.sizes();
    let head = head_bytes(sizes);
    let links = link_bytes(sizes) * sizes.links;
    let flows = flow_bytes(sizes) * sizes.flows;
    let tunnels = TUNNEL_BYTES * sizes.tunnels;
    let list = network.numbers();
    let digits = widths(&list[..sizes.tunnel_at(0)]);
    head + links + flows + tunnels + digits + tunnel_widths(network)
}

// The same for a plan.
pub fn plan_needed(plan: &PlanList<'_>, room: usize) -> usize
    ensures { Needed (length (render Form.Plan plan.now)) room result }
{
    let list = plan.numbers();
    if BYTES <= room {
        return 0;
    }
    let rows = list.len() - PlanSizes::HEAD;
    PLAN_BYTES + AT_BYTES * rows + widths(list)
}

// How many bytes a number's line has, by what the form has there.
fn line_len(line: Option<Line>, v: u64) -> usize
    requires { Writable line v }
    ensures { result ≡ length (line_of line v) }
{
    let Some(line) = line else {
        return 0;
    };
    let name = line.key.text().len();
    if line.range.is_hex() {
        return name + 17;
    }
    name + lines::width(v) + 1
}

// How many bytes rule tables are written as, line by line: which line comes next follows from the numbers before it, so that the loop has an index.
pub fn rules_len(list: &[u64]) -> usize
    requires { Whole Form.Rules list.now }
    ensures { result ≡ length (render Form.Rules list.now) }
{
    let mut sum: usize = 0;
    for i in 0..list.len() {
        let line = form::rules_field(&list[..i]);
        sum += line_len(line, list[i]);
    }
    sum
}

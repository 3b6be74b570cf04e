// The two blocks of a page, each a heading and its lines.
ghost use Rattle.std.specs.Prelude.{◌≡◌, ◌+◌, ◌*◌, ◌≤◌, ◌<◌, length};
ghost use Rattle.lists.specs.Lists.{network_sizes, network_of, plan_sizes, plan_of};
ghost use Rattle.lines.specs.Puts.{Puts};
ghost use Rattle.amounts.specs.Columns.{capacity};
ghost use Rattle.fields.specs.Columns.{line_size, line};
ghost use Rattle.page.specs.Page.{hops, link_fields, tunnel_fields, page};
ghost use Rattle.page.specs.Inner.{Accepted, block};

use amounts::pair::Pair;
use lists::judged::NetworkList;

// What link l can carry of what is not held, in parts.
fn capacity(pair: &Pair<'_>, l: usize) -> u64
    requires { l < (network_sizes pair.now.network).links }
    ensures { result ≡ capacity (network_of pair.now.network) (plan_of pair.now.plan).parts l }
{
    let network = pair.network();
    let sizes = network.sizes();
    let list = network.numbers();
    let cap = list[sizes.link_at(l)];
    let left = cap - sizes.held(list, l);
    let parts = pair.plan().parts();
    parts * left
}

// Puts the line of link l.
fn put_link(out: &mut [u8], from: usize, pair: &Pair<'_>, i: usize, l: usize) -> usize
    requires { Accepted pair.now.network pair.now.plan × (i < (plan_sizes pair.now.plan).steps) × (l < (network_sizes pair.now.network).links) × (from + line_size ≤ length out.old) }
    ensures { Puts (line (link_fields (network_of pair.now.network) (plan_of pair.now.plan) i l)) from out.old out.new result }
{
    let step = i + 1;
    let cap = capacity(pair, l);
    let worst = step_loads::on_link(pair, i, l);
    let numbers = [step as u64, l as u64, cap, worst.protected, worst.all];
    fields::put_line(out, from, numbers)
}

// Puts a line for each link.
fn put_links(out: &mut [u8], from: usize, pair: &Pair<'_>, i: usize) -> usize
    requires { Accepted pair.now.network pair.now.plan × (i < (plan_sizes pair.now.plan).steps) × (from + line_size * (network_sizes pair.now.network).links ≤ length out.old) }
    ensures { Puts (block (network_sizes pair.now.network).links (link_fields (network_of pair.now.network) (plan_of pair.now.plan) i)) from out.old out.new result }
{
    let mut at = from;
    for l in 0..pair.network().links() {
        at = put_link(out, at, pair, i, l);
    }
    at
}

// How many links tunnel t crosses.
fn hops(network: &NetworkList<'_>, t: usize) -> u64
    requires { t < (network_sizes network.now).tunnels }
    ensures { result ≡ hops (network_of network.now) t }
{
    u64::from(network.via(t).count_ones())
}

// Puts the line of tunnel t.
fn put_tunnel(out: &mut [u8], from: usize, pair: &Pair<'_>, t: usize) -> usize
    requires { (t < (network_sizes pair.now.network).tunnels) × (from + line_size ≤ length out.old) }
    ensures { Puts (line (tunnel_fields (network_of pair.now.network) t)) from out.old out.new result }
{
    let network = pair.network();
    let flow = network.flow(t) as u64;
    let crossed = hops(network, t);
    let old = network.old(t);
    let new = network.new_amount(t);
    let numbers = [t as u64, flow, crossed, old, new];
    fields::put_line(out, from, numbers)
}

// Puts a line for each tunnel.
fn put_tunnels(out: &mut [u8], from: usize, pair: &Pair<'_>) -> usize
    requires { from + line_size * (network_sizes pair.now.network).tunnels ≤ length out.old }
    ensures { Puts (block (network_sizes pair.now.network).tunnels (tunnel_fields (network_of pair.now.network))) from out.old out.new result }
{
    let mut at = from;
    for t in 0..pair.network().tunnels() {
        at = put_tunnel(out, at, pair, t);
    }
    at
}

// Puts the page of the step from row i.
pub(crate) fn put_page(out: &mut [u8], pair: &Pair<'_>, i: usize) -> usize
    requires { Accepted pair.now.network pair.now.plan × (i < (plan_sizes pair.now.plan).steps) × (line_size * (2 + (network_sizes pair.now.network).links + (network_sizes pair.now.network).tunnels) ≤ length out.old) }
    ensures { Puts (page (network_of pair.now.network) (plan_of pair.now.plan) i) 0 out.old out.new result }
{
    let links = lines::put(out, 0, b"  step  link       cap protected       all\n");
    let heading = put_links(out, links, pair, i);
    let tunnels = lines::put(
        out,
        heading,
        b"tunnel  flow      hops       old       new\n",
    );
    put_tunnels(out, tunnels, pair)
}

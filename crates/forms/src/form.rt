// The forms: which line stands at a position, given the numbers before it.
ghost use Rattle.std.specs.Prelude.{◌≡◌, ltb, length, get_or, ◌≤◌, ◌<◌, None};
ghost use Rattle.model.specs.Limits.{most_switches, most_tunnels};
ghost use Rattle.lists.specs.Lists.{at, network_sizes, link_at};
ghost use Rattle.lists.specs.Good.{Limited};
ghost use Rattle.forms.specs.Keys.{prefix_of};
ghost use Rattle.forms.specs.Numbered.{part_of};
ghost use Rattle.forms.specs.Form.{line, field_of, network_body, rules_body, admits_of, is_hex, second_of, has_remarks, Sound, count_lines, unit_lines, network_lines, link_lines, flow_lines, tunnel_lines, plan_lines, rules_lines, rule_lines};

use lists::{Network, PlanSizes, Position, RuleTables};

// The order is that of the numbers that tell the texts apart in a refusal.
#[derive(Clone, Copy)]
pub enum Form {
    Network,
    Plan,
    Rules,
}

impl Form {
    // The second number of a refusal.
    pub fn second(self) -> u64
        ensures { result ≡ second_of self }
    {
        self as u64
    }

    // Whether a text of the form may have remarks.
    pub fn has_remarks(self) -> bool
        ensures { result ≡ has_remarks self }
    {
        matches!(self, Form::Network | Form::Plan)
    }
}

// Which numbers a line may have. A set is written in hexadecimal, any other number in decimal.
#[derive(Clone, Copy)]
pub enum Range {
    // from the first to the second
    Between(u64, u64),
    // 0, or from the first to the second
    ZeroOr(u64, u64),
    // less than this
    Below(u64),
    // a set, not empty, of numbers less than this
    Set(u64),
}

impl Range {
    // Whether a line may have the number v.
    pub fn admits(self, v: u64) -> bool
        ensures { result ≡ admits_of self v }
    {
        match self {
            Range::Between(low, high) => low <= v && v <= high,
            Range::ZeroOr(low, high) => v == 0 || (low <= v && v <= high),
            Range::Below(n) => v < n,
            Range::Set(n) => is_set(v, n),
        }
    }

    pub fn is_hex(self) -> bool
        ensures { result ≡ is_hex self }
    {
        matches!(self, Range::Set(_))
    }
}

// The keys.
#[derive(Clone, Copy)]
pub enum Key {
    Net,
    Scratch,
    Overrun,
    Links,
    Flows,
    Tunnels,
    Cap,
    Class,
    Rate,
    Flow,
    Via,
    Old,
    New,
    Plan,
    Parts,
    Steps,
    At,
    Rules,
    Slack,
    Switches,
    Room,
    Kind,
    Next,
    Unit,
    Held,
}

impl Key {
    // What stands before a value: the key and `=`.
    pub fn text(self) -> &'static [u8]
        ensures { result.now ≡ prefix_of self }
    {
        match self {
            Key::Net => b"net=",
            Key::Scratch => b"scratch=",
            Key::Overrun => b"overrun=",
            Key::Links => b"links=",
            Key::Flows => b"flows=",
            Key::Tunnels => b"tunnels=",
            Key::Cap => b"cap=",
            Key::Class => b"class=",
            Key::Rate => b"rate=",
            Key::Flow => b"flow=",
            Key::Via => b"via=",
            Key::Old => b"old=",
            Key::New => b"new=",
            Key::Plan => b"plan=",
            Key::Parts => b"parts=",
            Key::Steps => b"steps=",
            Key::At => b"at=",
            Key::Rules => b"rules=",
            Key::Slack => b"slack=",
            Key::Switches => b"switches=",
            Key::Room => b"room=",
            Key::Kind => b"kind=",
            Key::Next => b"next=",
            Key::Unit => b"unit=",
            Key::Held => b"held=",
        }
    }

    fn line(self, range: Range) -> Option<Line>
        ensures { result ≡ line self range }
    {
        Some(Line { key: self, range })
    }
}

// The text of the key with a number, by the order of the keys; the empty text for a number past the last.
pub fn key_part(key: usize) -> &'static [u8]
    ensures { result.now ≡ part_of key }
{
    match key {
        0 => Key::Net.text(),
        1 => Key::Scratch.text(),
        2 => Key::Overrun.text(),
        3 => Key::Links.text(),
        4 => Key::Flows.text(),
        5 => Key::Tunnels.text(),
        6 => Key::Cap.text(),
        7 => Key::Class.text(),
        8 => Key::Rate.text(),
        9 => Key::Flow.text(),
        10 => Key::Via.text(),
        11 => Key::Old.text(),
        12 => Key::New.text(),
        13 => Key::Plan.text(),
        14 => Key::Parts.text(),
        15 => Key::Steps.text(),
        16 => Key::At.text(),
        17 => Key::Rules.text(),
        18 => Key::Slack.text(),
        19 => Key::Switches.text(),
        20 => Key::Room.text(),
        21 => Key::Kind.text(),
        22 => Key::Next.text(),
        23 => Key::Unit.text(),
        24 => Key::Held.text(),
        _ => b"",
    }
}

// A line: its key, and which numbers it may have. What stands at a position is a line, or nothing, since the form ends there.
#[derive(Clone, Copy)]
pub struct Line {
    pub key: Key,
    pub range: Range,
}

// The line at place n of those of the counts.
fn count_group(n: usize) -> Option<Line>
    ensures { result ≡ get_or count_lines n None }
{
    match n {
        0 => Key::Links.line(Range::Between(1, Network::LINKS)),
        1 => Key::Flows.line(Range::Between(0, Network::FLOWS)),
        2 => Key::Tunnels.line(Range::Between(0, Network::TUNNELS)),
        _ => None,
    }
}

// The line at place n of the head's after the overrun.
fn unit_group(edition: u64, n: usize) -> Option<Line>
    ensures { result ≡ get_or (unit_lines edition) n None }
{
    if edition < Network::HELD_SINCE {
        return count_group(n);
    }
    match n {
        0 => Key::Unit.line(Range::Between(0, 1)),
        _ => count_group(n - 1),
    }
}

// The line at place n of the head.
pub fn network_head(edition: u64, n: usize) -> Option<Line>
    ensures { result ≡ get_or (network_lines edition) n None }
{
    match n {
        0 => Key::Net.line(Range::Between(1, Network::EDITION)),
        1 => Key::Scratch.line(Range::Between(Network::SHARE_LOW, Network::SHARE_HIGH)),
        2 => Key::Overrun.line(Range::ZeroOr(Network::SHARE_LOW, Network::SHARE_HIGH)),
        _ => unit_group(edition, n - 3),
    }
}

fn link_group(sizes: Network, before: u64, n: usize) -> Option<Line>
    ensures { result ≡ get_or (link_lines sizes.edition before) n None }
{
    match n {
        0 => Key::Cap.line(Range::Between(0, Network::AMOUNT)),
        1 if sizes.has_held() => Key::Held.line(Range::Between(0, before)),
        _ => None,
    }
}

fn flow_group(sizes: Network, n: usize) -> Option<Line>
    ensures { result ≡ get_or (flow_lines sizes.edition) n None }
{
    match n {
        0 => Key::Class.line(Range::Between(0, 2)),
        1 => Key::Rate.line(Range::Between(0, Network::AMOUNT)),
        2 if sizes.has_next() => Key::Next.line(Range::Between(0, Network::AMOUNT)),
        _ => None,
    }
}

fn tunnel_group(sizes: Network, n: usize) -> Option<Line>
    ensures { result ≡ get_or (tunnel_lines sizes) n None }
{
    match n {
        0 => Key::Flow.line(Range::Below(sizes.flows as u64)),
        1 => Key::Via.line(Range::Set(sizes.links as u64)),
        2 => Key::Old.line(Range::Between(0, Network::AMOUNT)),
        3 => Key::New.line(Range::Between(0, Network::AMOUNT)),
        _ => None,
    }
}

// The line at position i, after the number before.
fn network_body(sizes: Network, before: u64, i: usize) -> Option<Line>
    requires { Limited sizes × (link_at sizes 0 ≤ i) }
    ensures { result ≡ network_body sizes before i }
{
    match sizes.position(i) {
        Position::Link(_, j) => link_group(sizes, before, j),
        Position::Flow(_, j) => flow_group(sizes, j),
        Position::Tunnel(_, j) => tunnel_group(sizes, j),
        Position::Past => None,
    }
}

// Is what stands after some numbers of a network a line of its head? This and the two functions below are apart, each of them small
// enough for the compiler to put it into the loops that ask for line after line.
pub fn in_network_head(done: &[u64]) -> bool
    ensures { result ≡ ltb (length done.now) (length (network_lines (at done.now 0))) }
{
    let i = done.len();
    if i < Network::HEAD - 1 {
        return true;
    }
    if Network::HEAD <= i {
        return false;
    }
    Network::HELD_SINCE <= done[0]
}

// The line of the head after some numbers of a network.
pub fn network_head_field(done: &[u64]) -> Option<Line>
    requires { length done.now < length (network_lines (at done.now 0)) }
    ensures { result ≡ field_of Form.Network done.now }
{
    let i = done.len();
    if i == 0 {
        return network_head(0, i);
    }
    network_head(done[0], i)
}

// What stands after a network's head and some more numbers, each of which its own field allows. The sizes are handed over: a reader
// takes them out of the list once.
pub fn network_body_field(sizes: Network, done: &[u64]) -> Option<Line>
    requires { Sound Form.Network done.now × (length (network_lines (at done.now 0)) ≤ length done.now) × (sizes ≡ network_sizes done.now) }
    ensures { result ≡ field_of Form.Network done.now }
{
    let i = done.len();
    network_body(sizes, done[i - 1], i)
}

// The line at place n of the head.
pub fn plan_head(n: usize) -> Option<Line>
    ensures { result ≡ get_or plan_lines n None }
{
    match n {
        0 => Key::Plan.line(Range::Between(1, 1)),
        1 => Key::Parts.line(Range::Between(1, Network::STEPS)),
        2 => Key::Steps.line(Range::Between(1, Network::STEPS)),
        3 => Key::Tunnels.line(Range::Between(0, Network::TUNNELS)),
        _ => None,
    }
}

// What stands after some numbers of a plan, each of which its own field allows.
pub fn plan_field(done: &[u64]) -> Option<Line>
    requires { Sound Form.Plan done.now }
    ensures { result ≡ field_of Form.Plan done.now }
{
    let i = done.len();
    if i < PlanSizes::HEAD {
        return plan_head(i);
    }
    let sizes = PlanSizes::of(done);
    if i < sizes.row_at(sizes.steps) {
        let high = Network::AMOUNT * sizes.parts;
        return Key::At.line(Range::Between(0, high));
    }
    None
}

// The line at place n of the head.
pub fn rules_head(n: usize) -> Option<Line>
    ensures { result ≡ get_or rules_lines n None }
{
    match n {
        0 => Key::Rules.line(Range::Between(1, 1)),
        1 => Key::Slack.line(Range::Between(RuleTables::SLACK_LOW, RuleTables::SLACK_HIGH)),
        2 => Key::Switches.line(Range::Between(1, RuleTables::SWITCHES)),
        3 => Key::Tunnels.line(Range::Between(0, RuleTables::TUNNELS)),
        _ => None,
    }
}

fn rule_group(sizes: RuleTables, n: usize) -> Option<Line>
    ensures { result ≡ get_or (rule_lines sizes) n None }
{
    match n {
        0 => Key::Via.line(Range::Set(sizes.switches as u64)),
        1 => Key::Kind.line(Range::Between(RuleTables::KEEP, RuleTables::REMOVE)),
        _ => None,
    }
}

fn rules_body(sizes: RuleTables, i: usize) -> Option<Line>
    requires { (sizes.switches ≤ most_switches) × (sizes.tunnels ≤ most_tunnels) }
    ensures { result ≡ rules_body sizes i }
{
    let rules_at = sizes.rule_at(0);
    if i < rules_at {
        return Key::Room.line(Range::Between(0, RuleTables::ROOM));
    }
    if i < sizes.rule_at(sizes.tunnels) {
        return rule_group(sizes, (i - rules_at) % RuleTables::PER_TUNNEL);
    }
    None
}

// What stands after some numbers of rule tables, each of which its own field allows.
pub fn rules_field(done: &[u64]) -> Option<Line>
    requires { Sound Form.Rules done.now }
    ensures { result ≡ field_of Form.Rules done.now }
{
    let i = done.len();
    if i < RuleTables::HEAD {
        return rules_head(i);
    }
    rules_body(RuleTables::of(done), i)
}

// Whether v is a set, not empty, of numbers less than n. A shift by 64, a number's bits, is not defined, and every v is a set of numbers less than 64.
pub fn is_set(v: u64, n: u64) -> bool
    ensures { result ≡ admits_of (Range.Set n) v }
{
    if v == 0 {
        return false;
    }
    if 64 <= n {
        return true;
    }
    v >> n == 0
}

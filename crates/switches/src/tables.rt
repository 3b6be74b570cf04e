// Tables with a number for each switch that there can be.
ghost use Rattle.std.specs.Prelude.{◌≡◌, ◌+◌, ◌*◌, ◌≤◌, replicate};
ghost use Rattle.model.specs.Limits.{most_tunnels, most_steps, most_switches, most_room};
ghost use Rattle.switches.specs.Inner.{Table, OfKind, Shiftable, Shifted, fits_all};

use lists::RuleTables;
use rules::judged::RulesList;

// How many numbers a table has.
pub const SWITCHES: usize = RuleTables::SWITCHES as usize;

// Adds to the counts of the switches in a set, and takes off them: of the switch of the set's lowest bit, which is then cleared, until none is left.
pub fn shift(counts: &mut [u64], via: u64, more: u64, less: u64)
    requires { Shiftable via more less counts.old }
    ensures { Shifted via more less counts.old counts.new }
{
    let mut set = via;
    while set != 0 {
        let switch = u64::trailing_zeros(set) as usize;
        counts[switch] = counts[switch] + more - less;
        set = set & (set - 1);
    }
}

// At each switch of a set, is `unit` times the count, with `more`, at most `times` what is spare?
pub fn fits(counts: &[u64], spares: &[u64], via: u64, unit: u64, more: u64, times: u64) -> bool
    requires table { Table most_tunnels counts.now × Table (1000 * most_room) spares.now }
    requires unit_bound { (unit ≤ 1000 * most_steps) × (more ≤ 1) × (times ≤ most_steps) }
    ensures { result ≡ fits_all via unit more times counts.now spares.now }
{
    let mut left = via;
    while left != 0 {
        let switch = u64::trailing_zeros(left) as usize;
        if times * spares[switch] < unit * (counts[switch] + more) {
            return false;
        }
        left = left & (left - 1);
    }
    true
}

// Counts the tunnels of a kind, which is given by its number: of any other number there are none.
pub fn count(rules: &RulesList<'_>, kind: u64, counts: &mut [u64])
    requires { counts.old ≡ replicate most_switches 0 }
    ensures { OfKind rules.now kind counts.new }
{
    for t in 0..rules.tunnels() {
        if rules.number_of_kind(t) == kind {
            shift(counts, rules.via(t), 1, 0);
        }
    }
}

// Do the old and the new set fit, and what is spare beside the kept tunnels?
ghost use Rattle.std.specs.Prelude.{◌≡◌, ◌≤◌, replicate};
ghost use Rattle.rules.specs.Rules.{remove};
ghost use Rattle.model.specs.Limits.{most_tunnels, most_switches};
ghost use Rattle.switches.specs.Inner.{OfKind, Kinds, unfit_by, Judged};

use crate::tables;
use crate::tables::SWITCHES;
use lists::RuleTables;
use lists::refusal::{Cause, Refusal};
use rules::judged::RulesList;

// Which set does not fit what may be used of a switch, if one does not: 0 the old one, 1 the new one.
fn unfit(usable: u64, kept: u64, removing: u64, adding: u64) -> Option<u64>
    requires { (kept ≤ most_tunnels) × (removing ≤ most_tunnels) × (adding ≤ most_tunnels) }
    ensures { result ≡ unfit_by usable kept removing adding }
{
    if usable < 1000 * (kept + removing) {
        return Some(0);
    }
    if usable < 1000 * (kept + adding) {
        return Some(1);
    }
    None
}

// Refusal 18 for the first switch that a set does not fit, the old one before the new; else the spares are in their table.
fn by_counts(
    rules: &RulesList<'_>,
    kept: &[u64],
    adding: &[u64],
    removing: &[u64],
    spares: &mut [u64],
) -> Result<(), Refusal>
    requires kinds { Kinds rules.now kept.now adding.now removing.now }
    requires spares_value { spares.old ≡ replicate most_switches 0 }
    ensures { Judged rules.now result spares.new }
{
    let free = 1000 - rules.slack();
    // An index, since the switch's number is its place in each table and is told in the refusal.
    for s in 0..rules.switches() {
        let usable = free * rules.room(s);
        let held = kept[s];
        if let Some(second) = unfit(usable, held, removing[s], adding[s]) {
            return Err(Refusal {
                cause: Cause::Unfit,
                place: s as u64,
                second,
            });
        }
        spares[s] = usable - 1000 * held;
    }
    Ok(())
}

// The same, with the tunnels to remove counted: all of them remain at first.
pub fn judge(
    rules: &RulesList<'_>,
    remaining: &mut [u64],
    spares: &mut [u64],
) -> Result<(), Refusal>
    requires { (remaining.old ≡ replicate most_switches 0) × (spares.old ≡ replicate most_switches 0) }
    ensures { Judged rules.now result spares.new × OfKind rules.now remove remaining.new }
{
    let mut kept = [0u64; SWITCHES];
    let mut adding = [0u64; SWITCHES];
    tables::count(rules, RuleTables::KEEP, &mut kept);
    tables::count(rules, RuleTables::ADD, &mut adding);
    tables::count(rules, RuleTables::REMOVE, remaining);
    by_counts(rules, &kept, &adding, remaining, spares)
}

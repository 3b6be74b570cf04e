// The stages: in each, a pass over the tunnels to add and then one over those to remove.
ghost use Rattle.std.specs.Prelude.{◌≡◌, ◌++◌, ◌≤◌, ◌<◌, length, drop};
ghost use Rattle.model.specs.Listed.{listed};
ghost use Rattle.lists.specs.Lists.{at, table_sizes, rule_at};
ghost use Rattle.rules.specs.Stage as model;
ghost use Rattle.rules.specs.Rules.{remove, last_stage};
ghost use Rattle.rules.specs.Lists.{rules_of};
ghost use Rattle.rules.specs.Kinds.{kind_number};
ghost use Rattle.switches.specs.Inner.{OfKind, Spares};
ghost use Rattle.staging.specs.Inner.{Ready, Reached, StagedTo, move_of};

use lists::RuleTables;
use rules::judged::{Kind, RulesList};
use switches::tables;
use switches::tables::SWITCHES;

const TUNNELS: usize = RuleTables::TUNNELS as usize;

// The terms of a pass over the tunnels: the kind that moves, the stage, and its test, by which `unit` times a count is at most `times` what is spare.
#[derive(Clone, Copy)]
struct Terms {
    pub kind: Kind,
    pub stage: u64,
    pub times: u64,
    pub unit: u64,
}

// The turn of tunnel t, whose lines begin at `from`: if it is of the kind, has no stage yet and goes, it has this stage.
fn turn(
    rules: &RulesList<'_>,
    from: usize,
    spares: &[u64],
    p: Terms,
    t: usize,
    counts: &mut [u64],
    stages: &mut [u64],
)
    requires ready { Ready rules.now spares.now (kind_number p.kind) p.stage p.times p.unit counts.old stages.old }
    requires t_bound { (t < (table_sizes rules.now).tunnels) × (from ≡ rule_at (table_sizes rules.now) t) }
    ensures { Reached rules.now (move_of (kind_number p.kind)) (model.turn (rules_of rules.now) (move_of (kind_number p.kind)) p.stage (at stages.old) t) counts.new stages.new }
{
    if rules.kind_at(from) != p.kind {
        return;
    }
    if stages[t] != 0 {
        return;
    }
    let via = rules.via_at(from);
    // One to add is not counted yet; one to remove is, until it is out.
    let adds = p.kind == Kind::Add;
    let more = adds as u64;
    let fits = tables::fits(counts, spares, via, p.unit, more, p.times);
    // One to add goes where it fits, one to remove where it does not.
    if fits == adds {
        stages[t] = p.stage;
        tables::shift(counts, via, more, !adds as u64);
    }
}

// The turns of all tunnels, in number order. The place of a tunnel's lines goes on by what two tunnels are apart, which is faster than a
// multiplication for each.
fn pass(rules: &RulesList<'_>, spares: &[u64], p: Terms, counts: &mut [u64], stages: &mut [u64])
    requires { Ready rules.now spares.now (kind_number p.kind) p.stage p.times p.unit counts.old stages.old }
    ensures { Reached rules.now (move_of (kind_number p.kind)) (model.pass (rules_of rules.now) (move_of (kind_number p.kind)) p.stage (at stages.old) (rules_of rules.now).tunnels) counts.new stages.new }
{
    let mut from = rules.rule_at(0);
    for t in 0..rules.tunnels() {
        turn(rules, from, spares, p, t, counts, stages);
        from += RuleTables::PER_TUNNEL;
    }
}

// All stages, from none. `added` counts the tunnels to add that are in, `remaining` those to remove that are not out.
fn run(
    rules: &RulesList<'_>,
    spares: &[u64],
    added: &mut [u64],
    remaining: &mut [u64],
    stages: &mut [u64],
)
    requires spares { Spares (rules_of rules.now) spares.now }
    requires staged_to { StagedTo rules.now 0 added.old remaining.old stages.old }
    ensures { StagedTo rules.now (last_stage (rules_of rules.now)) added.new remaining.new stages.new }
{
    let last = bound::last_step(rules.slack());
    let unit = 1000 * last;
    for before in 0..last {
        let i = before + 1;
        let adding = Terms {
            kind: Kind::Add,
            stage: i,
            times: i,
            unit,
        };
        let removing = Terms {
            kind: Kind::Remove,
            stage: i,
            times: last - i,
            unit,
        };
        pass(rules, spares, adding, added, stages);
        pass(rules, spares, removing, remaining, stages);
    }
}

// Gives each tunnel its stage. The stages are found in a table that starts with none, since the output may hold anything.
pub(crate) fn give(rules: &RulesList<'_>, spares: &[u64], remaining: &mut [u64], out: &mut [u64])
    requires spares { Spares (rules_of rules.now) spares.now }
    requires remaining { OfKind rules.now remove remaining.old }
    requires room { (table_sizes rules.now).tunnels ≤ length out.old }
    ensures { out.new ≡ listed (table_sizes rules.now).tunnels (model.stages (rules_of rules.now) (last_stage (rules_of rules.now))) ++ drop (table_sizes rules.now).tunnels out.old }
{
    let mut added = [0u64; SWITCHES];
    let mut stages = [0u64; TUNNELS];
    run(rules, spares, &mut added, remaining, &mut stages);
    let tunnels = rules.tunnels();
    out[..tunnels].copy_from_slice(&stages[..tunnels]);
}

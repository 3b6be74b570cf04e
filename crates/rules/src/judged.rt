// Rule tables that are judged good, with the sizes that their head gives. What holds of every such list stands in its type; in
// a clause a value of the type is its list.
ghost use Rattle.std.specs.Prelude.{ℕ, ◌≡◌, ◌+◌, ◌^◌, ◌≤◌, ◌<◌};
ghost use Rattle.model.specs.Limits.{most_tunnels, most_switches, most_room, least_share, most_share};
ghost use Rattle.lists.specs.Lists.{at, table_sizes, rule_at};
ghost use Rattle.rules.specs.Rules.{keep, remove};
ghost use Rattle.rules.specs.Lists.{rules_of, GoodRules};
ghost use Rattle.rules.specs.Kinds.{kind_number};

use lists::RuleTables;
use std::marker::Model;

// What becomes of a tunnel's rules, in the order of the kinds' numbers, from 1 on.
#[derive(Clone, Copy, Debug, PartialEq, Eq, Drop)]
pub enum Kind {
    Keep = 1,
    Add,
    Remove,
}

impl Kind {
    fn numbered(number: u64) -> Kind
        requires { (keep ≤ number) × (number ≤ remove) }
        ensures { kind_number result ≡ number }
    {
        match number {
            RuleTables::KEEP => Kind::Keep,
            RuleTables::ADD => Kind::Add,
            _ => Kind::Remove,
        }
    }
}

// The list of rule tables.
#[derive(Drop)]
pub struct RulesList<'a> {
    list: &'a [u64],
    sizes: RuleTables,
}

impl<'a> Model for RulesList<'a> {
    ghost use Rattle.std.specs.Prelude.{ℕ, List};
    ghost use Rattle.rules.specs.Judged.{IsRules};

    ghost Value = { List ℕ };

    ghost view = { λ n. n.list.now };

    ghost invariant = { IsRules };
}

impl<'a> RulesList<'a> {
    pub fn new(list: &'a [u64]) -> RulesList<'a>
        requires { GoodRules list.now }
        ensures { result ≡ list.now }
    {
        RulesList {
            list,
            sizes: RuleTables::of(list),
        }
    }

    // How many switches and tunnels they have.
    pub fn switches(&self) -> usize
        ensures value { result ≡ (rules_of self.now).switches }
        ensures count { result ≡ (table_sizes self.now).switches }
        ensures good { GoodRules self.now }
    {
        self.sizes.switches
    }

    pub fn tunnels(&self) -> usize
        ensures value { result ≡ (rules_of self.now).tunnels }
        ensures count { result ≡ (table_sizes self.now).tunnels }
        ensures good { GoodRules self.now }
    {
        self.sizes.tunnels
    }

    // The slack, in thousandths.
    pub fn slack(&self) -> u64
        ensures value { result ≡ (rules_of self.now).slack }
        ensures within { (least_share ≤ result) × (result ≤ most_share) }
        ensures good { GoodRules self.now }
    {
        self.list[RuleTables::SLACK]
    }

    // The room of switch s.
    pub fn room(&self, s: usize) -> u64
        requires { s < (table_sizes self.now).switches }
        ensures value { result ≡ (rules_of self.now).room s }
        ensures most { result ≤ most_room }
    {
        self.list[self.sizes.room_at(s)]
    }

    // The switches of tunnel t, and its kind.
    pub fn via(&self, t: usize) -> u64
        requires { t < (table_sizes self.now).tunnels }
        ensures value { result ≡ (rules_of self.now).via t }
        ensures within { result < 2 ^ (table_sizes self.now).switches }
    {
        self.list[self.sizes.rule_at(t)]
    }

    pub fn kind(&self, t: usize) -> Kind
        requires { t < (table_sizes self.now).tunnels }
        ensures { kind_number result ≡ (rules_of self.now).kind t }
    {
        Kind::numbered(self.list[self.sizes.rule_at(t) + RuleTables::KIND])
    }

    // The kind of tunnel t by its number.
    pub fn number_of_kind(&self, t: usize) -> u64
        requires { t < (table_sizes self.now).tunnels }
        ensures { result ≡ (rules_of self.now).kind t }
    {
        let place = self.sizes.rule_at(t) + RuleTables::KIND;
        self.list[place]
    }

    // Where the two lines of tunnel t begin; past the last tunnel, how many lines there are.
    pub fn rule_at(&self, t: usize) -> usize
        requires { t ≤ (table_sizes self.now).tunnels }
        ensures value { result ≡ rule_at (table_sizes self.now) t }
        ensures good { GoodRules self.now }
    {
        self.sizes.rule_at(t)
    }

    // The switches and the kind of a tunnel whose lines begin at a place, for a pass that goes on by what two tunnels are apart: with a
    // multiplication for each tunnel it takes longer.
    pub fn via_at(&self, from: usize) -> u64
        requires { (t : ℕ) × (t < (table_sizes self.now).tunnels) × (from ≡ rule_at (table_sizes self.now) t) }
        ensures { result ≡ at self.now from }
    {
        let list = self.list;
        list[from]
    }

    pub fn kind_at(&self, from: usize) -> Kind
        requires { (t : ℕ) × (t < (table_sizes self.now).tunnels) × (from ≡ rule_at (table_sizes self.now) t) }
        ensures { kind_number result ≡ at self.now (from + 1) }
    {
        let list = self.list;
        Kind::numbered(list[from + RuleTables::KIND])
    }
}

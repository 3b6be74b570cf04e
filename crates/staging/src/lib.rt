//! The operations on rule tables, and the staging: rules go into the switches and out of them in stages, and no switch exceeds
//! its room. Each operation has no precondition.
#![tactic(auto)]

ghost use Rattle.std.specs.Prelude.{◌≡◌, length};
ghost use Rattle.lists.specs.Answers.{with_room, done, lent};
ghost use Rattle.lists.specs.Refusals.{counted};
ghost use Rattle.forms.specs.declared.form.Form.TheVariants as forms;
ghost use Rattle.forms.specs.Read.{read_text};
ghost use Rattle.forms.specs.Write.{write_text};
ghost use Rattle.rules.specs.Stage.{staged};
ghost use Rattle.rules.specs.Lists.{rules_of, staged_list};

use judges::judge;
use lists::Answer;
use lists::refusal::Refusal;
use rules::judged::RulesList;
use switches::room;
use switches::tables::SWITCHES;

mod stages;

// Reads a text of rule tables into a list of numbers, one for each line.
pub fn read_rules(text: &[u8], out: &mut [u64]) -> Answer
    ensures value { result ≡ done (with_room (length out.old) (read_text forms.Rules text.now)) }
    ensures out_after { out.new ≡ lent (with_room (length out.old) (read_text forms.Rules text.now)) out.old }
{
    Answer::done(readers::read::read_rules(text, out))
}

// Writes the text of a list of rule tables.
pub fn write_rules(list: &[u64], out: &mut [u8]) -> Answer
    ensures value { result ≡ done (with_room (length out.old) (write_text forms.Rules list.now)) }
    ensures out_after { out.new ≡ lent (with_room (length out.old) (write_text forms.Rules list.now)) out.old }
{
    Answer::done(writers::write::write_rules(list, out))
}

// Stages the rule tables of a list: each tunnel's stage, 0 for a kept one. Refuses a list that is not judged good, then sets that do not
// fit, then an output without room; a refusal leaves the output as it was.
pub fn stage_rules(list: &[u64], out: &mut [u64]) -> Answer
    ensures value { result ≡ done (with_room (length out.old) (staged_list list.now)) }
    ensures out_after { out.new ≡ lent (with_room (length out.old) (staged_list list.now)) out.old }
{
    Answer::done(stage(list, out))
}

fn stage(list: &[u64], out: &mut [u64]) -> Result<usize, Refusal>
    ensures value { result ≡ counted (with_room (length out.old) (staged_list list.now)) }
    ensures out_after { out.new ≡ lent (with_room (length out.old) (staged_list list.now)) out.old }
{
    judge::judge_rules(list)?;
    stage_good(&RulesList::new(list), out)
}

// The same for rule tables that are judged good.
fn stage_good(rules: &RulesList<'_>, out: &mut [u64]) -> Result<usize, Refusal>
    ensures value { result ≡ counted (with_room (length out.old) (staged (rules_of rules.now))) }
    ensures out_after { out.new ≡ lent (with_room (length out.old) (staged (rules_of rules.now))) out.old }
{
    let mut remaining = [0u64; SWITCHES];
    let mut spares = [0u64; SWITCHES];
    room::judge(rules, &mut remaining, &mut spares)?;
    let tunnels = rules.tunnels();
    if out.len() < tunnels {
        return Err(Refusal::no_room(tunnels));
    }
    stages::give(rules, &spares, &mut remaining, out);
    Ok(tunnels)
}

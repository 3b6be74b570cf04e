//! The seven operations, under their public names. Each has no precondition: its promise holds for all arguments.
#![tactic(auto)]

ghost use Rattle.std.specs.Prelude.{◌≡◌, length};
ghost use Rattle.lists.specs.Answers as answers;
ghost use Rattle.lists.specs.Answers.{with_room, done, lent};
ghost use Rattle.planner.specs.Planned.{planned};
ghost use Rattle.checker.specs.Check.{verdict, checked, marks_after};
ghost use Rattle.bound.specs.Bound.{bound_of, told};
ghost use Rattle.forms.specs.declared.form.Form.TheVariants as forms;
ghost use Rattle.forms.specs.Read.{read_text};
ghost use Rattle.forms.specs.Write.{write_text};

use lists::Answer;
use lists::refusal::Refusal;

// Reads a network text into a list of numbers, one for each line.
pub fn read_network(text: &[u8], out: &mut [u64]) -> Answer
    ensures value { result ≡ done (with_room (length out.old) (read_text forms.Network text.now)) }
    ensures out_after { out.new ≡ lent (with_room (length out.old) (read_text forms.Network text.now)) out.old }
{
    Answer::done(readers::read::read_network(text, out))
}

// Reads a plan text into a list of numbers, one for each line.
pub fn read_plan(text: &[u8], out: &mut [u64]) -> Answer
    ensures value { result ≡ done (with_room (length out.old) (read_text forms.Plan text.now)) }
    ensures out_after { out.new ≡ lent (with_room (length out.old) (read_text forms.Plan text.now)) out.old }
{
    Answer::done(readers::read::read_plan(text, out))
}

// Writes the text of a network's list.
pub fn write_network(list: &[u64], out: &mut [u8]) -> Answer
    ensures value { result ≡ done (with_room (length out.old) (write_text forms.Network list.now)) }
    ensures out_after { out.new ≡ lent (with_room (length out.old) (write_text forms.Network list.now)) out.old }
{
    Answer::done(writers::write::write_network(list, out))
}

// Writes the text of a plan's list.
pub fn write_plan(list: &[u64], out: &mut [u8]) -> Answer
    ensures value { result ≡ done (with_room (length out.old) (write_text forms.Plan list.now)) }
    ensures out_after { out.new ≡ lent (with_room (length out.old) (write_text forms.Plan list.now)) out.old }
{
    Answer::done(writers::write::write_plan(list, out))
}

// Makes the even plan of fewest steps for a network's list, at a lag.
pub fn make_plan(lag: u64, network: &[u64], out: &mut [u64]) -> Answer
    ensures value { result ≡ answers.plan (with_room (length out.old) (planned lag network.now)) }
    ensures out_after { out.new ≡ lent (with_room (length out.old) (planned lag network.now)) out.old }
{
    Answer::plan(planner::make_plan(lag, network, out))
}

// Checks anybody's plan against a network, at a lag, and marks the tunnels that show an overload.
pub fn check_plan(lag: u64, network: &[u64], plan: &[u64], marks: &mut [u8]) -> Answer
    ensures value { result ≡ checked network.now (verdict lag network.now plan.now (length marks.old)) }
    ensures marks_after { marks.new ≡ marks_after lag network.now plan.now (verdict lag network.now plan.now (length marks.old)) marks.old }
{
    Answer::done(checker::check::check_plan(lag, network, plan, marks))
}

// The step bound of a network that keeps its scratch.
pub fn step_bound(scratch: u64, overrun: u64) -> Result<u64, Refusal>
    ensures { result ≡ told (bound_of scratch overrun) }
{
    bound::step_bound(scratch, overrun)
}

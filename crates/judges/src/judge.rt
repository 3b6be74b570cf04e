// The judges of lists: the numbers, one after the other, each for 3, then 2; then, for a network, the sums.
ghost use Rattle.std.specs.Prelude.{◌≡◌, ◌+◌, ◌≤◌};
ghost use Rattle.lists.specs.Lists.{most_numbers};
ghost use Rattle.lists.specs.Refusals.{counted, judged};
ghost use Rattle.forms.specs.Form.{field_of, second_of, Sound};
ghost use Rattle.forms.specs.Read.{judge_numbers};
ghost use Rattle.forms.specs.Named.{judge_network, judge_plan, judge_rules};

use crate::{ranges, sums};
use forms::form;
use forms::form::{Form, Line};
use lists::Network;
use lists::judged::{NetworkList, PlanList};
use lists::refusal::{Cause, Refusal};

// The refusal of the number at i, whose line is i + 1.
fn refusal(cause: Cause, i: usize, form: Form) -> Refusal
    requires { i ≤ most_numbers }
    ensures { result ≡ record { cause = cause; place = i + 1; second = second_of form } }
{
    Refusal {
        cause,
        place: (i + 1) as u64,
        second: form.second(),
    }
}

// What stands after some numbers. With one caller the compiler puts it into the loop, and that is what it is fast by.
fn field_after(form: Form, done: &[u64]) -> Option<Line>
    requires { Sound form done.now }
    ensures { result ≡ field_of form done.now }
{
    match form {
        Form::Network => {
            if form::in_network_head(done) {
                form::network_head_field(done)
            } else {
                form::network_body_field(Network::of(done), done)
            }
        }
        Form::Plan => form::plan_field(done),
        Form::Rules => form::rules_field(done),
    }
}

fn judge_numbers(form: Form, list: &[u64]) -> Result<usize, Refusal>
    ensures { result ≡ counted (judge_numbers form list.now) }
{
    // An index, since the form, and not the list, says where the walk ends.
    let mut i: usize = 0;
    while let Some(line) = field_after(form, &list[..i]) {
        let Some(&number) = list.get(i) else {
            return Err(refusal(Cause::Missing, i, form));
        };
        if !line.range.admits(number) {
            return Err(refusal(Cause::OutOfRange, i, form));
        }
        i += 1;
    }
    if i < list.len() {
        return Err(refusal(Cause::Missing, i, form));
    }
    Ok(i)
}

// Judges the list of a network. Here and below, only a list that is not in the form is gone through number by number, for the place of the
// refusal.
pub fn judge_network<'a>(list: &'a [u64]) -> Result<NetworkList<'a>, Refusal>
    ensures { result ≡ judged (judge_network list.now) }
{
    if !ranges::is_network(list) {
        judge_numbers(Form::Network, list)?;
    }
    sums::add_up(list, Network::of(list))
}

// Judges the list of a plan.
pub fn judge_plan<'a>(list: &'a [u64]) -> Result<PlanList<'a>, Refusal>
    ensures { result ≡ judged (judge_plan list.now) }
{
    if !ranges::is_plan(list) {
        judge_numbers(Form::Plan, list)?;
    }
    Ok(PlanList::new(list))
}

// Judges the list of rule tables, and gives its length.
pub fn judge_rules(list: &[u64]) -> Result<usize, Refusal>
    ensures { result ≡ counted (judge_rules list.now) }
{
    if ranges::is_rules(list) {
        Ok(list.len())
    } else {
        judge_numbers(Form::Rules, list)
    }
}

// The operations on rule tables for C and Rust.
ghost use Rattle.std.specs.Prelude.{◌≡◌, length};
ghost use Rattle.lists.specs.Answers.{with_room, done, lent};
ghost use Rattle.forms.specs.declared.form.Form.TheVariants as forms;
ghost use Rattle.forms.specs.Read.{read_text};
ghost use Rattle.forms.specs.Write.{write_text};
ghost use Rattle.rules.specs.Lists.{staged_list};
ghost use Rattle.pavuneshil.specs.Four.{four};

use crate::numbers;

// Reads a text of rule tables into a list of numbers, one for each line.
#[unsafe(no_mangle)]
pub extern "C" fn pavuneshil_read_rules(text: &[u8], out: &mut [u64], answer: &mut [u64; 4])
    ensures answer_after { answer.new ≡ four (done (with_room (length out.old) (read_text forms.Rules text.now))) }
    ensures out_after { out.new ≡ lent (with_room (length out.old) (read_text forms.Rules text.now)) out.old }
{
    *answer = numbers(staging::read_rules(text, out));
}

// Writes the text of a list of rule tables.
#[unsafe(no_mangle)]
pub extern "C" fn pavuneshil_write_rules(list: &[u64], out: &mut [u8], answer: &mut [u64; 4])
    ensures answer_after { answer.new ≡ four (done (with_room (length out.old) (write_text forms.Rules list.now))) }
    ensures out_after { out.new ≡ lent (with_room (length out.old) (write_text forms.Rules list.now)) out.old }
{
    *answer = numbers(staging::write_rules(list, out));
}

// Stages the rule tables of a list.
#[unsafe(no_mangle)]
pub extern "C" fn pavuneshil_stage_rules(list: &[u64], out: &mut [u64], answer: &mut [u64; 4])
    ensures answer_after { answer.new ≡ four (done (with_room (length out.old) (staged_list list.now))) }
    ensures out_after { out.new ≡ lent (with_room (length out.old) (staged_list list.now)) out.old }
{
    *answer = numbers(staging::stage_rules(list, out));
}

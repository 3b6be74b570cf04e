// The amounts in the rows of a plan, those of a block of rows in a table.
ghost use Rattle.std.specs.Prelude.{ℕ, ◌≡◌, ◌+◌, ◌*◌, ◌≤◌, ◌<◌};
ghost use Rattle.model.specs.Limits.{most_tunnels, most_steps, most_amount};
ghost use Rattle.model.specs.Net;
ghost use Rattle.lists.specs.Lists.{network_sizes, network_of, plan_sizes, plan_of};
ghost use Rattle.loads.specs.Tables.{block_rows};
ghost use Rattle.amounts.specs.Rows.{larger_row, Placed, RowsGiven, RowAmounts};

use crate::pair::Pair;
use loads::amounts;
use loads::amounts::Amounts;
use loads::gather::ROWS;

// Puts what is given of each of n tunnels at row k of a block.
fn place<F: Fn(usize) -> u64>(n: usize, k: usize, amount: F, amounts: &mut Amounts)
    requires few { (n ≤ most_tunnels) × (k < block_rows) }
    requires callable { (t : ℕ) → t < n → F.pre amount t }
    requires small { (t r : ℕ) → t < n → F.post amount t r → r ≤ most_amount * most_steps }
    ensures { Placed (F.post amount) n k amounts.old.numbers amounts.new.numbers }
{
    for t in 0..n {
        amounts.numbers[amounts::amount_at(t, k)] = amount(t);
    }
}

// What is given of n tunnels in each row from row i on, for the rows before the end, as many as a block has.
fn fill<F: Fn(usize, usize) -> u64>(
    n: usize,
    end: usize,
    i: usize,
    amount: F,
    amounts: &mut Amounts,
)
    requires few { (n ≤ most_tunnels) × (i ≤ end) × (end ≤ most_steps + 1) }
    requires callable { (a t : ℕ) → i ≤ a → a < end → t < n → F.pre amount a t }
    requires small { (a t r : ℕ) → i ≤ a → a < end → t < n → F.post amount a t r → r ≤ most_amount * most_steps }
    ensures { RowsGiven (F.post amount) n end i block_rows amounts.new.numbers }
{
    for k in 0..ROWS.min(end - i) {
        place(n, k, |t| amount(i + k, t), amounts);
    }
}

// The larger of the amounts before and after each step from row i on, as many as a block has.
pub fn larger_amounts(pair: &Pair<'_>, i: usize, amounts: &mut Amounts)
    requires { i ≤ (plan_sizes pair.now.plan).steps }
    ensures { RowAmounts (larger_row (network_of pair.now.network) (plan_of pair.now.plan)) (network_sizes pair.now.network).tunnels (plan_sizes pair.now.plan).steps i block_rows amounts.new.numbers }
{
    let n = pair.network().tunnels();
    let end = pair.plan().steps();
    fill(n, end, i, |a, t| pair.larger(a, t), amounts);
}

// The amounts in each row from row i on, as many as a block has.
pub fn row_amounts(pair: &Pair<'_>, i: usize, amounts: &mut Amounts)
    requires { i ≤ (plan_sizes pair.now.plan).steps }
    ensures { RowAmounts (Net.row (network_of pair.now.network) (plan_of pair.now.plan)) (network_sizes pair.now.network).tunnels ((plan_sizes pair.now.plan).steps + 1) i block_rows amounts.new.numbers }
{
    let n = pair.network().tunnels();
    let end = pair.plan().steps() + 1;
    fill(n, end, i, |a, t| pair.amount(a, t), amounts);
}

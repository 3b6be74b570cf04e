// The largest numbers of windows: in a vector of a number for each row, each becomes the larger of it and the next, and that so
// many times.
ghost use Rattle.std.specs.Prelude.{◌+◌, eqb, ltb};
ghost use Rattle.loads.specs.Tables.{Vectors};
ghost use Rattle.loads.specs.Windows.{Widened, WidenedOn};

use crate::gather::ROWS;

// Each number of vector j but the last becomes the larger of it and the next. An index, since a place and the next one are read.
fn widen(table: &mut [u64], j: usize)
    requires { Vectors (j + 1) table.old }
    ensures { Widened j table.old table.new }
{
    let at = ROWS * j;
    for k in 0..ROWS - 1 {
        table[at + k] = table[at + k].max(table[at + k + 1]);
    }
}

// And that so many times: each becomes the largest of a window, which has so many rows after the first. What runs over the end
// of the vector is never read.
pub(crate) fn widen_by(times: usize, table: &mut [u64], j: usize)
    requires { Vectors (j + 1) table.old }
    ensures { WidenedOn times (λ i. eqb i j) table.old table.new }
{
    for p in 0..times {
        widen(table, j);
    }
}

// The largest numbers of the windows in each of n vectors.
pub fn widen_all(times: usize, n: usize, table: &mut [u64])
    requires { Vectors n table.old }
    ensures { WidenedOn times (λ j. ltb j n) table.old table.new }
{
    for j in 0..n {
        widen_by(times, table, j);
    }
}

// A keeper's share words, a whole row at a time.
ghost use Rattle.std.specs.Prelude.{◌≡◌, suc, ◌+◌, ◌*◌, ◌≤◌, length, get_or};
ghost use Rattle.lists.specs.Below.{Below};
ghost use Rattle.lists.specs.Listed.{listed};
ghost use Rattle.lists.specs.Pieces.{pieces};
ghost use Rattle.field.specs.Modulo.{mod257};
ghost use Rattle.shares.specs.Columns.{values_from};

// One step of Horner's rule, along a row. No word of it exceeds 256 * 16 + 256.
fn step(row: &mut [u16], x: u16, column: &[u16])
    requires as_long { length row.old ≡ length column.now }
    requires row_words { Below 257 row.old }
    requires column_words { Below 257 column.now }
    requires keeper { x ≤ 16 }
    ensures { row.new ≡ listed (λ i. mod257.add (get_or column.now i 0) (mod257.mul x (get_or row.old i 0))) (length row.old) }
{
    for (i, word) in column.iter().enumerate() {
        row[i] = (row[i] * x + *word) % 257;
    }
}

// The values at x of the polynomials across t + 1 columns, from the highest power down.
#[tactic(auto, using(crate::specs::RowLaws::parts_lie))]
pub fn share_row(columns: &[u16], t: usize, x: usize, row: &mut [u16])
    requires as_long { length columns.now ≡ length row.old * (t + 1) }
    requires words { Below 257 columns.now }
    requires keeper { x ≤ 16 }
    ensures { row.new ≡ values_from mod257 columns.now (length row.old) t x 0 }
{
    let l = row.len();
    let last = l * t;
    row.copy_from_slice(&columns[last..last + l]);
    for j in (0..t).rev() {
        let at = l * j;
        step(row, x as u16, &columns[at..at + l]);
    }
}

// The rows of keepers 1..n, each of l words, in their order.
#[tactic(auto, using(crate::specs::RowLaws::parts_lie))]
pub(crate) fn write_rows(columns: &[u16], t: usize, n: usize, l: usize, rows: &mut [u16])
    requires as_long { length columns.now ≡ l * (t + 1) }
    requires words { Below 257 columns.now }
    requires keepers { n ≤ 16 }
    requires room { length rows.old ≡ l * n }
    ensures { rows.new ≡ pieces (λ k. values_from mod257 columns.now l t (suc k) 0) n }
{
    for k in 0..n {
        let at = l * k;
        share_row(columns, t, k + 1, &mut rows[at..at + l]);
    }
}

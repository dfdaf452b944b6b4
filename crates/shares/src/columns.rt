// The constants and the random words laid out in columns, one for each power of x.
ghost use Rattle.std.specs.Prelude.{◌≡◌, ◌+◌, ◌*◌, ◌<◌, length, get_or};
ghost use Rattle.lists.specs.Listed.{listed};
ghost use Rattle.shares.specs.Columns.{columns_of};

// The coefficients of x^(j + 1): word j of each t random words.
#[tactic(auto, using(std::proofs::lemmas::Nat::rows))]
fn put_coefficients(random: &[u16], t: usize, j: usize, column: &mut [u16])
    requires as_many { length random.now ≡ length column.old * t }
    requires within { j < t }
    ensures { column.new ≡ listed (λ i. get_or random.now (i * t + j) 0) (length column.old) }
{
    for i in 0..column.len() {
        column[i] = random[i * t + j];
    }
}

// Lays the constants and the t columns of coefficients out, end to end.
#[tactic(auto, using(crate::specs::RowLaws::parts_lie))]
pub fn lay_out(constants: &[u16], random: &[u16], t: usize, columns: &mut [u16])
    requires words { length random.now ≡ length constants.now * t }
    requires room { length columns.old ≡ length constants.now * (t + 1) }
    ensures { columns.new ≡ columns_of t constants.now random.now }
{
    let l = constants.len();
    columns[..l].copy_from_slice(constants);
    for j in 0..t {
        let at = l * (j + 1);
        put_coefficients(random, t, j, &mut columns[at..at + l]);
    }
}

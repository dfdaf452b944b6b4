// Weighing: from words at some keepers to the words at another place, on the polynomials through them.
#![tactic(auto)]

ghost use Rattle.std.specs.Prelude.{◌≡◌, ◌-◌, ◌+◌, ◌*◌, ◌%◌, length, get_or};
ghost use Rattle.lists.specs.Listed.{listed};
ghost use Rattle.algebra.specs.Factor.{factor};
ghost use Rattle.field.specs.Modulo.{mod257};
ghost use Rattle.weigh.specs.Weigh.{carried, row_word, Keepers, Carriage, Addition};

use field::{add, mul, reciprocal, sub};

// The factor by which a word at the point a counts at the place x, as one fraction: its parts are multiplied first, and one reciprocal is read.
pub fn factor_of(points: &[u16], a: u16, x: u16) -> u16
    ensures { result ≡ factor mod257 points.now a x }
{
    let mut above: u16 = 1;
    let mut below: u16 = 1;
    for &b in points {
        if a != b {
            above = mul(sub(x, b), above);
            below = mul(sub(a, b), below);
        }
    }
    mul(above, reciprocal(below))
}

// The word at x on the polynomial through the points' words, keeper k + 1's being word k.
pub fn carry_word(points: &[u16], words: &[u16], x: u16) -> u16
    requires keepers { Keepers points.now }
    requires words_size { length words.now ≡ 16 }
    ensures { result ≡ carried mod257 points.now (λ a. get_or words.now (a - 1) 0) x }
{
    let mut sum: u16 = 0;
    for &a in points {
        let word = words[usize::from(a) - 1];
        sum = add(sum, mul(word, factor_of(points, a, x)));
    }
    sum
}

// Adds a row, times a factor, to the sums.
pub fn add_row(sums: &mut [u32], row: &[u16], factor: u16)
    requires { Addition sums.old row.now factor }
    ensures { sums.new ≡ listed (λ i. get_or sums.old i 0 + get_or row.now i 0 * factor) (length sums.old) }
{
    for (i, sum) in sums.iter_mut().enumerate() {
        *sum += u32::from(row[i]) * u32::from(factor);
    }
}

// The sums, modulo 257.
pub fn reduce(sums: &[u32], row: &mut [u16])
    requires { length sums.now ≡ length row.old }
    ensures { row.new ≡ listed (λ i. get_or sums.now i 0 % 257) (length sums.now) }
{
    for (i, word) in row.iter_mut().enumerate() {
        *word = (sums[i] % 257) as u16;
    }
}

// The words at x, a row of them, from the rows of at most eight keepers.
pub fn carry_row(points: &[u16], rows: &[u16], x: u16, row: &mut [u16])
    requires { Carriage points.now rows.now row.old }
    ensures { row.new ≡ listed (λ i. carried mod257 points.now (λ a. row_word rows.now a i) x) (length row.old) }
{
    let mut sums = [0u32; 952];
    let size = row.len();
    for &a in points {
        let at = 952 * (usize::from(a) - 1);
        add_row(
            &mut sums[..size],
            &rows[at..at + size],
            factor_of(points, a, x),
        );
    }
    reduce(&sums[..size], row);
}

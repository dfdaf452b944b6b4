// The cut of a list of words, each of which may be 256.
ghost use Rattle.std.specs.Prelude.{◌≡◌, ◌&&◌};
ghost use Rattle.block.specs.Check.{all_at_most};
ghost use Rattle.refusals.specs.Numbers.{code_of};
ghost use Rattle.field.specs.Modulo.{mod257};
ghost use Rattle.shares.specs.Words.{words_number, share_rows, WordsDone};

use crate::columns::lay_out;
use crate::lent::{judge_lent, lent_right};
use crate::rows::write_rows;
use block::bounds::within;
use header::order::Order;
use header::terms::lawful_length;
use refusals::Refusal;

#[tactic(auto, using(header::specs::Chain::chain))]
fn both_within(constants: &[u16], random: &[u16]) -> bool
    ensures { result ≡ (all_at_most 256 constants.now && all_at_most 256 random.now) }
{
    within(constants, 256) && within(random, 256)
}

// The first refusal that applies.
#[tactic(auto, using(header::specs::OrderLaws::lawful_order_facts), unfolding(crate::specs::Words::words_number, crate::specs::Lent::lent_number))]
fn judge(o: Order, constants: &[u16], random: &[u16], rows: &[u16]) -> Result<(), Refusal>
    ensures { code_of result ≡ words_number o constants.now random.now rows.now }
{
    let l = constants.len();
    if !o.is_lawful() {
        return Err(Refusal::NotLawful);
    }
    if !lawful_length(l) {
        return Err(Refusal::Length);
    }
    let right = lent_right(o, l, random.len(), l, rows.len());
    judge_lent(right, both_within(constants, random))
}

// Fills the rows of all keepers, of what is not refused. 7616 words are the longest list's eight columns.
pub fn fill(o: Order, constants: &[u16], random: &[u16], rows: &mut [u16])
    requires { words_number o constants.now random.now rows.old ≡ 0 }
    ensures { rows.new ≡ share_rows mod257 o constants.now random.now }
{
    let size = constants.len() * (o.t + 1);
    let mut room = [0u16; 7616];
    let columns = &mut room[..size];
    lay_out(constants, random, o.t, columns);
    write_rows(columns, o.t, o.n, constants.len(), rows);
}

// Cuts words into a row of share words for each keeper, keeper 1's first. A refused cut leaves the rows as they were.
pub fn cut(o: Order, constants: &[u16], random: &[u16], rows: &mut [u16]) -> Result<(), Refusal>
    ensures { WordsDone mod257 o constants.now random.now rows.old (code_of result) rows.new }
{
    judge(o, constants, random, rows)?;
    fill(o, constants, random, rows);
    Ok(())
}

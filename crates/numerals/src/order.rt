// An order as one word: t, f and n with commas between, as 2,1,8.
ghost use Rattle.std.specs.Prelude.{◌≡◌};
ghost use Rattle.std.specs.List.{position};
ghost use Rattle.numerals.specs.Order.{OrderRead};
ghost use Rattle.numerals.specs.OrderLaws.{is_comma, PairRead};

use crate::number;

#[derive(Clone, Copy, Debug, PartialEq, Eq)]
pub struct OrderWord {
    pub t: u32,
    pub f: u32,
    pub n: u32,
}

// The place of the first comma.
pub(crate) fn comma(word: &[u8]) -> Option<usize>
    ensures { result ≡ position is_comma word.now }
{
    word.iter().position(|byte| *byte == b',')
}

// The two numbers that a word says, with one comma between.
fn two_numbers(word: &[u8]) -> Option<(u32, u32)>
    ensures { PairRead word.now result }
{
    let at = comma(word)?;
    let f = number(&word[..at])?;
    let n = number(&word[at + 1..])?;
    Some((f, n))
}

// The order that a word says. A word is one in just one way, since no number has a comma in it.
pub fn order(word: &[u8]) -> Option<OrderWord>
    ensures { OrderRead word.now result }
{
    let at = comma(word)?;
    let t = number(&word[..at])?;
    let (f, n) = two_numbers(&word[at + 1..])?;
    Some(OrderWord { t, f, n })
}

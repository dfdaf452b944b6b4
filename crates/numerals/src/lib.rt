// Words as numbers: decimal digits; an order as three of them with commas between, and a list of them likewise.
#![tactic(auto)]

ghost use Rattle.numerals.specs.Numeral.{NumberRead};

pub mod list;
pub mod order;

// The number that the digits of a word say. A word of more than ten digits is none.
pub fn number(word: &[u8]) -> Option<u32>
    ensures { NumberRead word.now result }
{
    if !(1..=10).contains(&word.len()) {
        return None;
    }
    let mut value: u64 = 0;
    for byte in word {
        if !byte.is_ascii_digit() {
            return None;
        }
        value = value * 10 + u64::from(*byte - b'0');
    }
    u32::try_from(value).ok()
}

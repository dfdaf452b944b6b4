// The check of a block: its two sums, a block sealed with them, and what is wrong with one. A block's words are taken once, with their
// bytes exchanged, which is how most machines hold them. 256 is minus one modulo 257, so an exchanged word is minus the word, and the sums need no byte moved.
ghost use Rattle.std.specs.Prelude.{◌≡◌, ◌*◌, ◌%◌, [], ◌∷◌, length, take};
ghost use Rattle.refusals.specs.Numbers.{code_of};
ghost use Rattle.block.specs.Words.{bytes_of, words_of, exchanged_all};
ghost use Rattle.block.specs.Check.{plain_check, weighted_check, sealed, checked, block_number};

use crate::bounds::exchanged_within;
use crate::weights::WEIGHTS;
use crate::words::put_words;
use refusals::Refusal;

// The words of a block, each with its bytes exchanged.
fn exchanged_words(block: &[u8]) -> [u16; 256]
    requires { length block.now ≡ 512 }
    ensures { exchanged_all result ≡ words_of block.now }
{
    let mut row = [0; 256];
    for (i, word) in row.iter_mut().enumerate() {
        *word = u16::from_le_bytes([block[2 * i], block[2 * i + 1]]);
    }
    row
}

// Minus a sum, modulo 257.
fn minus(sum: u32) -> u16
    ensures { result ≡ 256 * (sum % 257) % 257 }
{
    (256 * (sum % 257) % 257) as u16
}

// The check words that a row of exchanged words should have. The sums stay below 2^32 for any words: 254 * 65535 * 256.
fn check_words(row: &[u16]) -> [u16; 2]
    requires { length row.now ≡ 256 }
    ensures { result ≡ plain_check (exchanged_all row.now) ∷ weighted_check (exchanged_all row.now) ∷ [] }
{
    let mut plain = 0;
    let mut weighted = 0;
    for (i, weight) in WEIGHTS.iter().enumerate() {
        let word = u32::from(row[i]);
        plain += word;
        weighted += word * u32::from(*weight);
    }
    [minus(plain), minus(weighted)]
}

// Writes the check words after 254 words.
pub fn seal(block: &mut [u8])
    requires { length block.old ≡ 512 }
    ensures { block.new ≡ bytes_of (sealed (take 254 (words_of block.old))) }
{
    let row = exchanged_words(block);
    put_words(block, 254, &check_words(&row));
}

// Whether a row of exchanged words has the check words that it should have.
fn agrees(row: &[u16]) -> bool
    requires { length row.now ≡ 256 }
    ensures { result ≡ checked (exchanged_all row.now) }
{
    [row[254].swap_bytes(), row[255].swap_bytes()] == check_words(row)
}

// Whether a block is right, whatever its words mean. The check and the bound are both computed before either is judged, so that they can be worked on
// together.
#[tactic(auto, unfolding(crate::specs::Check::block_number))]
pub fn judge(block: &[u8]) -> Result<(), Refusal>
    requires { length block.now ≡ 512 }
    ensures { code_of result ≡ block_number (words_of block.now) }
{
    let row = exchanged_words(block);
    let right = agrees(&row);
    if !exchanged_within(&row, 256) {
        return Err(Refusal::LargeWord);
    }
    if !right {
        return Err(Refusal::Check);
    }
    Ok(())
}

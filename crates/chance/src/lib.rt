// Random words for a cut, each of 0 .. 256 as likely as any other, from the system's own source.
#![tactic(auto)]

ghost use Rattle.std.specs.Prelude.{◌≡◌, true, length, OnOk, [], ◌∷◌};
ghost use Rattle.block.specs.Check.{all_at_most};
ghost use Rattle.chance.specs.Draw.{words_drawn, words_given, Laid, Begun};
ghost use Rattle.chance.specs.Draw.{drawn as Draw·drawn};

use std::io::Error;
use std::random::RandomSource;

// What a draw of 16 bits gives: a word, or nothing, and then it is drawn again. 257 goes 255 times into the draws below 65535, and 65535 is left over.
pub fn drawn(draw: u16) -> Option<u16>
    ensures { result ≡ Draw·drawn draw }
{
    if draw < 65535 { Some(draw % 257) } else { None }
}

// Puts the word of a draw behind those that there are, if it is taken and has a place, and answers how many there are then.
fn put(words: &mut [u16], count: usize, draw: u16) -> usize
    requires { Begun words.old count }
    ensures begun { Begun words.new result }
    ensures laid { Laid words.old count (words_drawn (draw ∷ [])) words.new result }
{
    let Some(word) = drawn(draw) else {
        return count;
    };
    if count == words.len() {
        return count;
    }
    words[count] = word;
    count + 1
}

// Lays the words that the bytes of one call to the source give behind those that there are, as far as they go; answers how many there are then.
fn fill_from(bytes: &[u8; 256], words: &mut [u16], from: usize) -> usize
    requires begun { Begun words.old from }
    requires bytes_len { length bytes.now ≡ 256 }
    ensures begun { Begun words.new result }
    ensures laid { Laid words.old from (words_given bytes.now) words.new result }
{
    let mut count = from;
    for i in 0..128 {
        let draw = u16::from_be_bytes([bytes[2 * i], bytes[2 * i + 1]]);
        count = put(words, count, draw);
    }
    count
}

// The system's number for a source that does not give what it should.
const EIO: i32 = 5;

// Fills the words, or says why the source gave too little.
pub fn fill(rt: &HostRuntime, words: &mut [u16]) -> Result<(), Error>
    ensures { OnOk result (all_at_most 256 words.new ≡ true) }
{
    let mut bytes = [0u8; 256];
    let mut count = 0;
    'calls: for _ in 0..1000 {
        if count == words.len() {
            return Ok(());
        }
        rt.fill_bytes(&mut bytes)?;
        count = fill_from(&bytes, words, count);
    }
    if count == words.len() {
        Ok(())
    } else {
        Err(Error::from_raw_os_error(EIO))
    }
}

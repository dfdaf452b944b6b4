// Words of two bytes, high byte first: read one, compare one, write a run, read a run.
ghost use Rattle.std.specs.Prelude.{◌≡◌, ◌+◌, ◌*◌, ◌<◌, ◌≤◌, eqb, length, get_or, take, drop};
ghost use Rattle.lists.specs.Patched.{patched};
ghost use Rattle.block.specs.Words.{bytes_of, words_of};

// Word i of some bytes.
pub fn word_at(bytes: &[u8], i: usize) -> u16
    requires { 2 * i + 1 < length bytes.now }
    ensures { result ≡ get_or (words_of bytes.now) i 0 }
{
    u16::from_be_bytes([bytes[2 * i], bytes[2 * i + 1]])
}

// Whether word i of some bytes is word i of others.
pub fn same_word(a: &[u8], b: &[u8], i: usize) -> bool
    requires { (2 * i + 1 < length a.now) × (2 * i + 1 < length b.now) }
    ensures { result ≡ eqb (get_or (words_of a.now) i 0) (get_or (words_of b.now) i 0) }
{
    word_at(a, i) == word_at(b, i)
}

// Lays words over the bytes, from word `from` on.
pub fn put_words(bytes: &mut [u8], from: usize, words: &[u16])
    requires { 2 * from + 2 * length words.now ≤ length bytes.old }
    ensures { bytes.new ≡ patched bytes.old (2 * from) (bytes_of words.now) }
{
    for (i, word) in words.iter().enumerate() {
        let at = 2 * (from + i);
        bytes[at..at + 2].copy_from_slice(&word.to_be_bytes());
    }
}

// Fills a row with the words from word `from` on.
pub fn take_words(bytes: &[u8], from: usize, row: &mut [u16])
    requires { 2 * from + 2 * length row.old ≤ length bytes.now }
    ensures { row.new ≡ take (length row.old) (drop from (words_of bytes.now)) }
{
    for (i, word) in row.iter_mut().enumerate() {
        *word = word_at(bytes, from + i);
    }
}

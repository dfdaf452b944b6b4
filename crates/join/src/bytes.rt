// Words that are bytes.
ghost use Rattle.std.specs.Prelude.{◌≡◌, true, length};
ghost use Rattle.block.specs.Check.{all_at_most};

// Writes words that are bytes into a room for as many.
pub fn put_bytes(words: &[u16], room: &mut [u8])
    requires bytes { all_at_most 255 words.now ≡ true }
    requires same_size { length words.now ≡ length room.old }
    ensures { room.new ≡ words.now }
{
    for (i, &word) in words.iter().enumerate() {
        room[i] = word as u8;
    }
}

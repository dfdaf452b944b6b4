// Lists of keepers: whether they are an order's, differ from one another, and are among others.
ghost use Rattle.std.specs.Prelude.{◌≡◌, ◌≤◌, length, take};
ghost use Rattle.lists.specs.Below.{Below};
ghost use Rattle.sub_letters.specs.Keepers.{all_keepers, differ, each_in};

use header::order::Order;

// Whether all of them are keepers of an order.
pub fn all_keepers(o: Order, keepers: &[u32]) -> bool
    ensures { result ≡ all_keepers o keepers.now }
{
    keepers.iter().all(|keeper| o.has_keeper(*keeper as usize))
}

// Copies keepers to as many words.
pub fn put_keepers(keepers: &[u32], row: &mut [u16])
    requires room { length row.old ≡ length keepers.now }
    requires below { Below 17 keepers.now }
    ensures { row.new ≡ keepers.now }
{
    for (i, keeper) in keepers.iter().enumerate() {
        row[i] = *keeper as u16;
    }
}

// The keepers as words, in front of eight.
pub fn words_of(keepers: &[u32]) -> [u16; 8]
    requires few { length keepers.now ≤ 8 }
    requires below { Below 17 keepers.now }
    ensures { take (length keepers.now) result ≡ keepers.now }
{
    let mut words = [0; 8];
    put_keepers(keepers, &mut words[..keepers.len()]);
    words
}

// Whether no two are the same.
pub fn are_different(xs: &[u16]) -> bool
    ensures { result ≡ differ xs.now }
{
    for (i, x) in xs.iter().enumerate() {
        if xs[..i].contains(x) {
            return false;
        }
    }
    true
}

// Whether each of the first is among the second.
pub fn are_among(xs: &[u16], ys: &[u16]) -> bool
    ensures { result ≡ each_in xs.now ys.now }
{
    xs.iter().all(|x| ys.contains(x))
}

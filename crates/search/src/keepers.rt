// Sets of keepers as numbers of 16 bits, keeper x being bit x - 1.
ghost use Rattle.std.specs.Prelude.{◌≡◌, ◌+◌, ◌^◌, ◌<◌, ◌≤◌, take};
ghost use Rattle.std.specs.Int.Count.{ones};
ghost use Rattle.lists.specs.KeeperSet.{member};
ghost use Rattle.search.specs.Base.{Base};

#[derive(Clone, Copy, Debug, PartialEq, Eq)]
pub struct KeeperSet {
    pub bits: u16,
}

impl KeeperSet {
    // The set of nobody.
    pub const EMPTY: KeeperSet = KeeperSet { bits: 0 };

    // Whether keeper k + 1 is of the set.
    pub fn has(self, k: usize) -> bool
        requires { k < 16 }
        ensures { result ≡ member self.bits (k + 1) }
    {
        (self.bits >> k) % 2 == 1
    }

    // The set with keeper k + 1 too, who is behind all of it.
    pub fn with(self, k: usize) -> KeeperSet
        requires behind { self.bits < 2 ^ k }
        requires keeper { k < 16 }
        ensures { result.bits ≡ self.bits + 2 ^ k }
    {
        KeeperSet {
            bits: self.bits + (1 << k),
        }
    }

    // How many keepers are of the set.
    pub fn count(self) -> u32
        ensures { result ≡ ones self.bits }
    {
        self.bits.count_ones()
    }

    // The first t + 1 keepers of a set that has as many, in rising order.
    // They stand in a room of eight, the most that `t_small` allows, since nothing is allocated.
    pub fn first(self, t: usize) -> [u16; 8]
        requires t_small { t ≤ 7 }
        requires enough { t + 1 ≤ ones self.bits }
        ensures { Base t 16 (member self.bits) (take (t + 1) result) }
    {
        let mut who = [0u16; 8];
        let mut found = 0;
        for k in 0..16 {
            if self.has(k) {
                who[found] = k as u16 + 1;
                if found == t {
                    break;
                }
                found += 1;
            }
        }
        who
    }
}

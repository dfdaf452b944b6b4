// The binomials: how many sets of k of m keepers there are.
ghost use Rattle.std.specs.Prelude.{◌≡◌, ◌≤◌};
ghost use Rattle.trials.specs.Sets.{choose};

// A row of nine for each m up to 16: entry 9 * m + k is m choose k.
const BINOMIALS: [u32; 153] = [
    1, 0, 0, 0, 0, 0, 0, 0, 0, 1, 1, 0, 0, 0, 0, 0, 0, 0, 1, 2, 1, 0, 0, 0, 0, 0, 0, 1, 3, 3, 1, 0,
    0, 0, 0, 0, 1, 4, 6, 4, 1, 0, 0, 0, 0, 1, 5, 10, 10, 5, 1, 0, 0, 0, 1, 6, 15, 20, 15, 6, 1, 0,
    0, 1, 7, 21, 35, 35, 21, 7, 1, 0, 1, 8, 28, 56, 70, 56, 28, 8, 1, 1, 9, 36, 84, 126, 126, 84,
    36, 9, 1, 10, 45, 120, 210, 252, 210, 120, 45, 1, 11, 55, 165, 330, 462, 462, 330, 165, 1, 12,
    66, 220, 495, 792, 924, 792, 495, 1, 13, 78, 286, 715, 1287, 1716, 1716, 1287, 1, 14, 91, 364,
    1001, 2002, 3003, 3432, 3003, 1, 15, 105, 455, 1365, 3003, 5005, 6435, 6435, 1, 16, 120, 560,
    1820, 4368, 8008, 11440, 12870,
];

// "keep the choose numbers in a small table"
pub fn choose(m: usize, k: usize) -> u32
    requires m_small { m ≤ 16 }
    requires k_small { k ≤ 8 }
    ensures { (result ≡ choose m k) × (result ≤ 12870) }
{
    BINOMIALS[9 * m + k]
}

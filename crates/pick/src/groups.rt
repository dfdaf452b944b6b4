// The groups that ranks tell of: how large each is, and which comes next.
ghost use Rattle.std.specs.Prelude.{◌≡◌, ◌==◌, max, count_by, filter};
ghost use Rattle.std.specs.List.{reduce};
ghost use Rattle.pick.specs.Ranks.{is_next};

// The size of a rank's group: how many of the ranks it is.
fn group_size(ranks: &[u64], rank: u64) -> usize
    ensures { result ≡ count_by (λ x. x == rank) ranks.now }
{
    ranks.iter().filter(|other| **other == rank).count()
}

// Whether a rank is below a bound and its group is at least so large. No rank of a letter is 0.
fn is_next(ranks: &[u64], least: usize, bound: u64, rank: u64) -> bool
    ensures { result ≡ is_next ranks.now least bound rank }
{
    0 < rank && (rank < bound && least <= group_size(ranks, rank))
}

// The greatest of the ranks below a bound whose group is at least so large.
pub fn next_of(ranks: &[u64], least: usize, bound: u64) -> Option<u64>
    ensures { result ≡ reduce max (filter (is_next ranks.now least bound) ranks.now) }
{
    ranks
        .iter()
        .filter(|rank| is_next(ranks, least, bound, **rank))
        .max()
        .copied()
}

// What is wrong with what a cut is lent: random words, and room for each keeper.
ghost use Rattle.std.specs.Prelude.{◌≡◌, cond, ◌≤◌};
ghost use Rattle.refusals.specs.Numbers.{code_of};
ghost use Rattle.shares.specs.Lent.{lent_right};

use header::order::Order;
use refusals::Refusal;

// Whether the random words and the room are as many as the order asks for l constants, each keeper having so much room.
// The lengths come as numbers, since one caller lends room of words and the others of bytes.
#[tactic(auto, using(std::proofs::lemmas::Bool::Decides::nat_tests))]
pub fn lent_right(o: Order, l: usize, words: usize, each: usize, room: usize) -> bool
    requires order_t { o.t ≤ 7 }
    requires order_n { o.n ≤ 16 }
    requires length { l ≤ 952 }
    requires each { each ≤ 2048 }
    ensures { result ≡ lent_right o l words each room }
{
    words == l * o.t && room == each * o.n
}

// What is lent is refused where the lengths are wrong, or else where a word is.
pub fn judge_lent(right: bool, words: bool) -> Result<(), Refusal>
    ensures { code_of result ≡ cond right (cond words 0 5) 4 }
{
    if !right {
        return Err(Refusal::Room);
    }
    if words { Ok(()) } else { Err(Refusal::Word) }
}

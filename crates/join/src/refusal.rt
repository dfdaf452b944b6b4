// What forbids a join before any letter is read.
ghost use Rattle.std.specs.Prelude.{◌≡◌, ◌&&◌, ◌*◌, ◌≤◌, eqb, length};
ghost use Rattle.refusals.specs.Numbers.{code_of};
ghost use Rattle.join.specs.Join.{join_refusal};

use header::order::Order;
use header::terms::Terms;
use refusals::Refusal;

// Whether the tray and the room are as large as the order and the length ask.
fn lent_right(o: Order, l: usize, tray: &[u8], room: &[u8]) -> bool
    requires { o.n ≤ 16 }
    ensures { result ≡ (eqb (length tray.now) (2048 * o.n) && eqb (length room.now) l) }
{
    tray.len() == 2048 * o.n && room.len() == l
}

// The first thing that forbids it.
pub fn judge_lent(terms: Terms, tray: &[u8], room: &[u8]) -> Result<(), Refusal>
    ensures { code_of result ≡ join_refusal terms.told terms.stamp terms.length tray.now room.now }
{
    terms.judge()?;
    if lent_right(terms.told.order, terms.length, tray, room) {
        Ok(())
    } else {
        Err(Refusal::Room)
    }
}

// What the cut of a secret is refused for, in the order of the numbers.
ghost use Rattle.std.specs.Prelude.{◌≡◌, length};
ghost use Rattle.refusals.specs.Numbers.{code_of};
ghost use Rattle.cut.specs.Cut.{cut_number};

use block::bounds::within;
use header::terms::Terms;
use refusals::Refusal;
use shares::lent::{judge_lent, lent_right};

// The first refusal that applies. No byte is above 256, so only the random words are looked at.
pub fn judge(terms: Terms, secret: &[u8], random: &[u16], tray: &[u8]) -> Result<(), Refusal>
    requires { terms.length ≡ length secret.now }
    ensures { code_of result ≡ cut_number terms.told terms.stamp secret.now random.now tray.now }
{
    terms.judge()?;
    let right = lent_right(
        terms.told.order,
        terms.length,
        random.len(),
        2048,
        tray.len(),
    );
    judge_lent(right, within(random, 256))
}

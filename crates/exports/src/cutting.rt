// cs_cut: a secret and random words become a tray.
ghost use Rattle.field.specs.Modulo.{mod257};
ghost use Rattle.cut.specs.Cut.{CutDone};
ghost use Rattle.exports.specs.Told.{as_told};

use crate::told::as_told;
use cut::secret::cut;
use refusals::number;

pub fn cs_cut(
    t: u32,
    f: u32,
    n: u32,
    key: u32,
    stamp: u32,
    secret: &[u8],
    random: &[u16],
    tray: &mut [u8],
) -> u32
    ensures { CutDone mod257 (as_told t f n key) stamp secret.now random.now tray.old result tray.new }
{
    number(cut(as_told(t, f, n, key), stamp, secret, random, tray))
}

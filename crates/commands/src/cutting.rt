// cut --order T,F,N --key K --stamp S SECRET FOLDER: a secret becomes a letter for each keeper.
ghost use Rattle.std.specs.Prelude.{◌*◌, ◌≤◌, ◌≡◌, length};

use crate::told::{faulty, slots_of};
use chance::fill;
use cut::secret::cut;
use files::load::given;
use format::reader::Fault;
use names::trimmed;
use options::given::Given;
use saving::folder::made;
use saying::status::Status;
use saying::trouble;

// How many random words a cut takes. A t or a length that is refused in any case needs none.
pub fn words_for(t: usize, length: usize) -> usize
    ensures { result ≤ 6664 }
{
    if t > 7 || length > 952 { 0 } else { t * length }
}

// Puts the letters of a tray into their folder, whose name may end in '/'.
pub fn put_letters(rt: &HostRuntime, folder: &[u8], n: u32, tray: &[u8]) -> Result<(), Status>
    requires { length tray.now ≡ 2048 * n }
{
    made(rt, trimmed(folder), n, tray)
}

// Draws the random words for a cut of so many bytes, and puts what is cut of them into the folder that is named.
pub fn cut_into<F: FnOnce(&[u16], &mut [u8]) -> Result<(), Fault>>(
    rt: &HostRuntime,
    g: &Given,
    length: usize,
    cut: F,
) -> Result<(), Status>
    requires { F.IsAlwaysCallable cut }
{
    let told = g.terms.told;
    let count = words_for(told.order.t, length);
    let mut words = [0u16; 6664];
    let random = &mut words[..count];
    fill(rt, random).map_err(|error| {
        trouble(
            rt,
            b"the system's source of random bytes",
            b"gives none",
            error,
        )
    })?;
    let n = slots_of(told);
    let mut slots = [0u8; 32768];
    let tray = &mut slots[..2048 * n as usize];
    cut(random, tray).map_err(|fault| faulty(rt, fault))?;
    let mut room = io::buffer();
    put_letters(rt, g.second_name(rt, &mut room), n, tray)
}

pub fn run(rt: &HostRuntime, g: &Given) -> Result<(), Status> {
    let mut name = io::buffer();
    // one byte more than the longest secret, so that a longer one is seen to be too long
    let mut room = [0u8; 953];
    let secret = given(rt, g.first_name(rt, &mut name), &mut room)?;
    let terms = g.terms;
    cut_into(rt, g, secret.len(), |random, tray| {
        Ok(cut(terms.told, terms.stamp, secret, random, tray)?)
    })
}

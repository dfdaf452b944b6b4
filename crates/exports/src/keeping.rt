// cs_store and cs_fetch: the keeper's desk.
ghost use Rattle.std.specs.Prelude.{◌≡◌};
ghost use Rattle.desk.specs.Desk.{StoreDone, fetch_number};
ghost use Rattle.exports.specs.Told.{as_told};
ghost use Rattle.exports.specs.Store.{stored_as};

use crate::told::as_told;
use desk::{fetch_or_why, store};
use refusals::number;

#[repr(C)]
#[derive(Clone, Copy, Debug, PartialEq, Eq)]
pub struct StoreResult {
    pub number: u32,
    pub place: u32,
}

pub fn cs_store(
    t: u32,
    f: u32,
    n: u32,
    key: u32,
    keeper: u32,
    held: &mut [u8],
    letter: &[u8],
) -> StoreResult
    ensures { StoreDone (as_told t f n key) keeper held.old letter.now (stored_as result) held.new }
{
    match store(as_told(t, f, n, key), keeper as usize, held, letter) {
        Ok(()) => StoreResult {
            number: 0,
            place: 0,
        },
        Err(fault) => StoreResult {
            number: fault.refusal.number(),
            place: fault.place as u32,
        },
    }
}

pub fn cs_fetch(t: u32, f: u32, n: u32, key: u32, keeper: u32, held: &[u8]) -> u32
    ensures { result ≡ fetch_number (as_told t f n key) keeper held.now }
{
    number(fetch_or_why(as_told(t, f, n, key), keeper as usize, held))
}

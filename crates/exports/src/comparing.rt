// cs_compare: what changed between two trays.
ghost use Rattle.compare.specs.Compare.{CompareDone};
ghost use Rattle.exports.specs.Told.{order_told};
ghost use Rattle.exports.specs.Compare.{compared_as};

use crate::told::order_told;
use compare::{Unlisted, compare};
use refusals::Refusal;

#[repr(C)]
#[derive(Clone, Copy, Debug, PartialEq, Eq)]
pub struct CompareResult {
    pub number: u32,
    pub count: u32,
}

pub fn cs_compare(
    t: u32,
    f: u32,
    n: u32,
    first: &[u8],
    second: &[u8],
    list: &mut [[u16; 5]],
) -> CompareResult
    ensures { CompareDone (order_told t f n) first.now second.now list.old (compared_as result) list.new }
{
    match compare(order_told(t, f, n), first, second, list) {
        Ok(count) => CompareResult {
            number: 0,
            count: count as u32,
        },
        Err(Unlisted::Refused(refusal)) => CompareResult {
            number: refusal.number(),
            count: 0,
        },
        Err(Unlisted::TooMany(count)) => CompareResult {
            number: Refusal::ManyDifferences.number(),
            count: count as u32,
        },
    }
}

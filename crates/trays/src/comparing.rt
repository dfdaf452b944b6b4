// compare --order T,F,N BEFORE AFTER: what changed from one tray to another, word by word.
ghost use Rattle.std.specs.Prelude.{◌≤◌, length};

use crate::loading::filled;
use commands::told::slots_of;
use compare::{Unlisted, compare};
use ending::{answered, status_for};
use options::given::Given;
use refusals::Refusal;
use saving::save::said;
use saying::status::Status;
use showing::{put_difference_line, put_total_line};
use system::output::Stream;

fn say_difference(rt: &HostRuntime, difference: &[u16; 5]) -> Result<(), Status> {
    let [slot, block, word, before, after] = difference.map(u32::from);
    let line = put_difference_line(slot, block, word, before, after);
    said(rt, Stream::Output, line.bytes())
}

// Says the differences, a line each, and how many there are, and ends so.
fn say_all(rt: &HostRuntime, differences: &[[u16; 5]]) -> Result<(), Status>
    requires { length differences.now ≤ 16384 }
{
    for difference in differences {
        say_difference(rt, difference)?;
    }
    let count = differences.len() as u32;
    said(rt, Stream::Output, put_total_line(count).bytes())?;
    status_for(count)
}

// Says why nothing is listed. The list has a place for each word of a tray.
fn unlisted(rt: &HostRuntime, why: Unlisted) -> Status {
    match why {
        Unlisted::Refused(refusal) => answered(rt, refusal.number(), 0),
        Unlisted::TooMany(_) => answered(rt, Refusal::ManyDifferences.number(), 0),
    }
}

#[tactic(auto, using(compare::proofs::CompareLaws::count_most))]
fn compare_trays(rt: &HostRuntime, g: &Given, before: &[u8], after: &[u8]) -> Result<(), Status> {
    let mut list = [[0u16; 5]; 16384];
    match compare(g.terms.told.order, before, after, &mut list) {
        Ok(count) => say_all(rt, &list[..count]),
        Err(why) => Err(unlisted(rt, why)),
    }
}

pub fn run(rt: &HostRuntime, g: &Given) -> Result<(), Status> {
    let n = slots_of(g.terms.told);
    let size = 2048 * n as usize;
    let mut name = io::buffer();
    let mut before = [0u8; 32768];
    filled(rt, g.first_name(rt, &mut name), n, &mut before[..size])?;
    let mut after = [0u8; 32768];
    filled(rt, g.second_name(rt, &mut name), n, &mut after[..size])?;
    compare_trays(rt, g, &before[..size], &after[..size])
}

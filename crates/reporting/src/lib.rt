// The program `report`: an order, a key and a tray on standard input, the report on standard output, its number as the status.
#![tactic(auto)]

ghost use Rattle.std.specs.Prelude.{◌≡◌, List, ℕ, pos};
ghost use Rattle.refusals.specs.Numbers.{code_of};
ghost use Rattle.reporting.specs.Status.{status_of, Ended};

use crate::standard::{refuse_words, say, taken};
use refusals::{Refusal, number};
use report_text::report;
use system::output::wrote;
use system::words::word_count;

mod standard;

// The number of the report, or 100, which is none, where the report is not written.
fn status_of(written: bool, outcome: Result<(), Refusal>) -> u8
    ensures { pos result ≡ status_of written (code_of outcome) }
{
    if written { number(outcome) as u8 } else { 100 }
}

// Writes the report of an input.
fn write_report(rt: &HostRuntime, input: &[u8]) -> u8
    ensures { Ended input.now (pos result) }
{
    let mut out = [0u8; 512];
    let answered = report(input, &mut out);
    let written = wrote(rt, &out[..answered.count]).is_ok();
    if !written {
        say(rt, "report: standard output cannot be written\n");
    }
    status_of(written, answered.outcome)
}

// The whole program.
pub fn report_run(rt: &HostRuntime) -> u8
    ensures { (input : List ℕ) × Ended input (pos result) }
{
    if word_count(rt) > 1 {
        return refuse_words(rt);
    }
    // One byte more than the longest input, so that a longer one is seen to be too long.
    let mut room = [0u8; 32773];
    let input = taken(rt, &mut room);
    write_report(rt, input)
}

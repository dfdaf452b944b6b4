// The report: from the input's bytes to the report's bytes.
#![tactic(auto)]

ghost use Rattle.std.specs.Prelude.{◌≡◌, ◌≤◌, length};
ghost use Rattle.refusals.specs.Numbers.{code, code_of};
ghost use Rattle.report_text.specs.Report.{has_lines, order_in, told_in, answered_of, short_number, ReportOf, Reported};

use crate::answer::{Answered, Page, alone};
use crate::joined::report_joined;
use header::order::Order;
use header::terms::Terms;
use header::told::Told;
use pick::pick;
use refusals::Refusal;

pub mod answer;
pub mod joined;
mod keeper;
pub mod line;

// Whether the lines of the group picked are written with what the pick, or the join, says.
pub fn has_lines(outcome: Result<(), Refusal>) -> bool
    ensures { result ≡ has_lines (code_of outcome) }
{
    matches!(
        outcome,
        Ok(()) | Err(Refusal::NoPolynomials) | Err(Refusal::NoSecret)
    )
}

// The report of an input that has an order and a key: of what is picked.
fn report_picked(told: Told, input: &[u8]) -> Page
    requires input_room { 4 ≤ length input.now }
    requires told_is { told ≡ told_in input.now }
    ensures { ReportOf input.now (code_of result.outcome) result.text }
{
    let tray = &input[4..];
    let picked = pick(told, tray);
    if !has_lines(picked.outcome) {
        return alone(picked.outcome);
    }
    let terms = Terms {
        told,
        stamp: picked.stamp,
        length: picked.length,
    };
    report_joined(terms, tray)
}

// The order that an input begins with.
fn order_in(input: &[u8]) -> Order
    requires { 3 ≤ length input.now }
    ensures { result ≡ order_in input.now }
{
    Order {
        t: usize::from(input[0]),
        f: usize::from(input[1]),
        n: usize::from(input[2]),
    }
}

// Why an input that has no key is refused: for an order that is not lawful where it has one, else for its size.
fn short_refusal(input: &[u8]) -> Refusal
    ensures { code result ≡ short_number input.now }
{
    if input.len() < 3 || order_in(input).is_lawful() {
        Refusal::Room
    } else {
        Refusal::NotLawful
    }
}

// The report of an input.
fn page(input: &[u8]) -> Page
    ensures { ReportOf input.now (code_of result.outcome) result.text }
{
    if input.len() < 4 {
        return alone(Err(short_refusal(input)));
    }
    let told = Told {
        order: order_in(input),
        key: usize::from(input[3]),
    };
    report_picked(told, input)
}

// Writes the report, and answers the count of its bytes and what its last line says.
pub fn report(input: &[u8], out: &mut [u8; 512]) -> Answered
    ensures { Reported input.now out.old (answered_of result) out.new }
{
    let page = page(input);
    let bytes = page.text.bytes();
    let count = bytes.len();
    out[..count].copy_from_slice(bytes);
    Answered {
        count,
        outcome: page.outcome,
    }
}

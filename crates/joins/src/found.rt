// What a join found, in the report's lines.
ghost use Rattle.std.specs.Prelude.{◌≡◌, true};
ghost use Rattle.report_text.specs.Joined.{Joinable};

use header::terms::Terms;
use join::Joined;
use refusals::Refusal;
use report_text::answer::alone;
use report_text::has_lines;
use report_text::joined::usable_in;
use report_text::line::put_lines;
use saving::save::said;
use saying::status::Status;
use showing::put_trials_line;
use system::output::Stream;

// Says the last line of the report alone.
pub fn say_answer(
    rt: &HostRuntime,
    to: Stream,
    outcome: Result<(), Refusal>,
) -> Result<(), Status> {
    let page = alone(outcome);
    said(rt, to, page.text.bytes())
}

// Says the lines of the keepers, and how many trials a hunt would take.
fn say_lines(
    rt: &HostRuntime,
    to: Stream,
    terms: Terms,
    joined: Joined,
    tray: &[u8],
) -> Result<(), Status>
    requires { Joinable terms.told terms.length tray.now }
{
    let lines = put_lines(terms, usable_in(terms, tray), joined);
    said(rt, to, lines.bytes())?;
    said(rt, to, put_trials_line(joined.trials).bytes())
}

// Whether what was joined can be reported keeper by keeper. Whatever has lines can.
fn is_joinable(terms: Terms, tray: &[u8]) -> bool
    ensures { result ≡ true → Joinable terms.told terms.length tray.now }
{
    let n = terms.told.order.n;
    n <= 16 && terms.told.key <= 255 && terms.length <= 952 && tray.len() == 2048 * n
}

// Says the report of a join: the lines of its keepers where it has them, else the last line alone.
pub fn say_joined(
    rt: &HostRuntime,
    to: Stream,
    terms: Terms,
    joined: Joined,
    tray: &[u8],
) -> Result<(), Status> {
    if has_lines(joined.outcome) && is_joinable(terms, tray) {
        say_lines(rt, to, terms, joined, tray)
    } else {
        say_answer(rt, to, joined.outcome)
    }
}

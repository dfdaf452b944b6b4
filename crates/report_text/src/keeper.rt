// The keepers' lines.
ghost use Rattle.std.specs.Prelude.{◌≡◌, ◌+◌, ◌*◌, ◌<◌, ◌≤◌, ◌++◌, length};
ghost use Rattle.lists.specs.Pieces.{pieces};
ghost use Rattle.refusals.specs.Numbers.{code_of};
ghost use Rattle.report_text.specs.Report.{standing};
ghost use Rattle.report_text.specs.Sets.{line_of};

use join::Joined;
use lines::line::Standing;
use lines::text::Text;
use refusals::Refusal;
use search::keepers::KeeperSet;

fn standing_of(outcome: Result<(), Refusal>, usable: bool, matches: bool) -> Standing
    ensures { result ≡ standing (code_of outcome) usable matches }
{
    if !usable {
        return Standing::Absent;
    }
    match outcome {
        Err(Refusal::NoPolynomials) => Standing::Present,
        _ if matches => Standing::Agrees,
        _ => Standing::Differs,
    }
}

// Writes the line of keeper k + 1.
fn put_keeper(text: &mut Text<512>, usable: KeeperSet, joined: Joined, k: usize)
    requires keeper { k < 16 }
    requires room { length text.old + 64 ≤ 512 }
    ensures { text.new ≡ text.old ++ line_of (code_of joined.outcome) usable.bits joined.set.bits k }
{
    let stands = standing_of(joined.outcome, usable.has(k), joined.set.has(k));
    text.put_keeper_line(k as u32 + 1, stands);
}

// Writes the lines of the keepers 1..n.
pub fn put_keepers(text: &mut Text<512>, n: usize, usable: KeeperSet, joined: Joined)
    requires n_small { n ≤ 16 }
    requires room { length text.old + 18 * 16 + 64 ≤ 512 }
    ensures written { text.new ≡ text.old ++ pieces (line_of (code_of joined.outcome) usable.bits joined.set.bits) n }
    ensures at_most { length text.new ≤ length text.old + 18 * 16 }
{
    for k in 0..n {
        put_keeper(text, usable, joined, k);
    }
}

// The lines of a join, by the set of the usable keepers.
ghost use Rattle.std.specs.Prelude.{◌≡◌, ◌^◌, ◌<◌, ◌≤◌};
ghost use Rattle.join.specs.Join.{joined_of};
ghost use Rattle.report_text.specs.Sets.{lines_of};

use crate::keeper::put_keepers;
use header::terms::Terms;
use join::Joined;
use lines::text::Text;
use refusals::number;
use search::keepers::KeeperSet;

#[tactic(auto, unfolding(crate::specs::Sets::lines_of))]
pub fn put_lines(terms: Terms, usable: KeeperSet, joined: Joined) -> Text<512>
    requires n_small { terms.told.order.n ≤ 16 }
    requires key_small { terms.told.key < 2 ^ 32 }
    requires length_small { terms.length < 2 ^ 32 }
    ensures { result ≡ lines_of terms.told.order.n terms.told.key terms.stamp terms.length usable.bits (joined_of joined) }
{
    let told = terms.told;
    let mut text = Text::new();
    text.put_key_line(told.key as u32, terms.stamp, terms.length as u32);
    put_keepers(&mut text, told.order.n, usable, joined);
    text.put_count_line(joined.usable, joined.need, joined.set.count());
    text.put_answer_line(number(joined.outcome));
    text
}

// The search at one word: a set of t + 1 keepers whose polynomial enough of the others match.
#![tactic(auto)]

ghost use Rattle.std.specs.Prelude.{◌≡◌, ◌+◌, ◌<◌, ◌≤◌, IfSome};
ghost use Rattle.std.specs.Int.Count.{ones};
ghost use Rattle.lists.specs.KeeperSet.{keeper_set, member};
ghost use Rattle.field.specs.Modulo.{mod257};
ghost use Rattle.weigh.specs.Weigh.{Keepers};
ghost use Rattle.search.specs.Search.{word, carried_to, Words, Finds, Through, Searched, Sought};
ghost use Rattle.search.specs.SetOf.{set_of};

pub mod keepers;

use crate::keepers::KeeperSet;
use weigh::carry_word;

// What is searched: the words of the keepers among some, for a polynomial of degree at most t that as many as are needed match.
#[derive(Drop)]
pub struct Search {
    pub words: [u16; 16],
    pub among: KeeperSet,
    pub t: usize,
    pub need: u32,
    ghost whole: { Words words },
    ghost small: { t ≤ 7 },
    ghost enough: { t + 1 ≤ need },
}

impl Search {
    // Whether keeper k + 1 is among the keepers, and its word lies on the polynomial through the points' words.
    fn matches(&self, points: &[u16], k: usize) -> bool
        requires keepers { Keepers points.now }
        requires keeper { k < 16 }
        ensures { result ≡ carried_to mod257 (member self.now.among.bits) (word self.now.words) points.now (k + 1) }
    {
        self.among.has(k) && carry_word(points, &self.words, k as u16 + 1) == self.words[k]
    }

    // The keepers whose words are those carried from the points.
    fn matching(&self, points: &[u16]) -> KeeperSet
        requires { Keepers points.now }
        ensures { result.bits ≡ keeper_set (carried_to mod257 (member self.now.among.bits) (word self.now.words) points.now) 16 }
    {
        let mut set = KeeperSet::EMPTY;
        for k in 0..16 {
            if self.matches(points, k) {
                set = set.with(k);
            }
        }
        set
    }

    // The keepers that match the polynomial through a base of t + 1 keepers, if they are enough.
    fn tried(&self, base: KeeperSet) -> Option<KeeperSet>
        requires { ones base.bits ≡ self.now.t + 1 }
        ensures many { IfSome result (λ set. self.now.need ≤ ones set.bits) }
        ensures finds { Finds mod257 self.now.t 16 self.now.need (member self.now.among.bits) (word self.now.words) (Through mod257 16 (member base.bits) (word self.now.words)) (set_of result) }
    {
        let points = base.first(self.t);
        let set = self.matching(&points[..self.t + 1]);
        if self.need <= set.count() {
            Some(set)
        } else {
            None
        }
    }

    // Goes on past keeper `next` with a base that lacks some of t + 1 keepers: each keeper of the set is included or skipped, and no more are
    // skipped than may be wrong.
    pub fn past(&self, base: KeeperSet, lack: usize, next: usize, skips: usize) -> Option<KeeperSet>
        requires { Sought self.now.t self.now.need base.bits lack next }
        ensures many { IfSome result (λ set. self.now.need ≤ ones set.bits) }
        ensures searched { Searched mod257 self.now.t 16 self.now.need (member self.now.among.bits) (word self.now.words) base.bits next skips (set_of result) }
    {
        if lack == 0 {
            return self.tried(base);
        }
        if 16 <= next {
            return None;
        }
        if !self.among.has(next) {
            return self.past(base, lack, next + 1, skips);
        }
        if let Some(set) = self.past(base.with(next), lack - 1, next + 1, skips) {
            return Some(set);
        }
        if skips == 0 {
            return None;
        }
        self.past(base, lack, next + 1, skips - 1)
    }
}

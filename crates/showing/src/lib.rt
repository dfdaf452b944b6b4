// The lines that the program csalgodes prints of a letter, of a difference, of a count and of a move that is checked, each a text of at most 128 bytes.
#![tactic(auto)]

ghost use Rattle.std.specs.Prelude.{◌≡◌, ◌≤◌, length};
ghost use Rattle.showing.specs.Lines.{letter_line, difference_line, total_line, trials_line, key_line, same_line};

use lines::text::Text;

// A line that is printed.
pub type Line = Text<128>;

// As "order 2,1,8 key 100 keeper 3 stamp 2 length 32".
#[tactic(auto, unfolding(crate::specs::Lines::letter_line, lines::specs::Text::text, lists::specs::Listed::listed))]
pub fn put_letter_line(t: u32, f: u32, n: u32, key: u32, keeper: u32, stamp: u32, l: u32) -> Line
    ensures { result ≡ letter_line t f n key keeper stamp l }
{
    let mut line = Text::new();
    line.put_named(b"order ", t);
    line.put_named(b",", f);
    line.put_named(b",", n);
    line.put_named(b" key ", key);
    line.put_named(b" keeper ", keeper);
    line.put_named(b" stamp ", stamp);
    line.put_named(b" length ", l);
    line.put(b"\n");
    line
}

// As "slot 6 block 0 word 9: 2 became 3".
#[tactic(auto, unfolding(crate::specs::Lines::difference_line, lines::specs::Text::text, lists::specs::Listed::listed))]
pub fn put_difference_line(slot: u32, block: u32, word: u32, first: u32, second: u32) -> Line
    ensures { result ≡ difference_line slot block word first second }
{
    let mut line = Text::new();
    line.put_named(b"slot ", slot);
    line.put_named(b" block ", block);
    line.put_named(b" word ", word);
    line.put_named(b": ", first);
    line.put_named(b" became ", second);
    line.put(b"\n");
    line
}

// As "no word differs", "1 word differs" or "2 words differ".
#[tactic(auto, unfolding(crate::specs::Lines::total_line, lines::specs::Text::text, lists::specs::Listed::listed))]
pub fn put_total_line(count: u32) -> Line
    ensures { result ≡ total_line count }
{
    let mut line = Text::new();
    match count {
        0 => line.put(b"no word differs\n"),
        1 => line.put(b"1 word differs\n"),
        _ => {
            line.put_decimal(count);
            line.put(b" words differ\n");
        }
    }
    line
}

// As "trials 2".
#[tactic(auto, unfolding(crate::specs::Lines::trials_line, lines::specs::Text::text, lists::specs::Listed::listed))]
pub fn put_trials_line(trials: u32) -> Line
    ensures { result ≡ trials_line trials }
{
    let mut line = Text::new();
    line.put_named(b"trials ", trials);
    line.put(b"\n");
    line
}

// As "old key 100 stamp 2 length 32", where the side is "old".
#[tactic(auto, unfolding(crate::specs::Lines::key_line, lines::specs::Text::text, lists::specs::Listed::listed))]
pub fn put_key_line(side: &[u8], key: u32, stamp: u32, l: u32) -> Line
    requires { length side.now ≤ 3 }
    ensures { result ≡ key_line side.now key stamp l }
{
    let mut line = Text::new();
    line.put(side);
    line.put_named(b" key ", key);
    line.put_named(b" stamp ", stamp);
    line.put_named(b" length ", l);
    line.put(b"\n");
    line
}

// "the same key" or "different keys".
#[tactic(auto, unfolding(crate::specs::Lines::same_line, lines::specs::Text::text, lists::specs::Listed::listed))]
pub fn put_same_line(same: bool) -> Line
    ensures { result ≡ same_line same }
{
    let words = if same {
        &b"the same key\n"[..]
    } else {
        b"different keys\n"
    };
    let mut line = Text::new();
    line.put(words);
    line
}

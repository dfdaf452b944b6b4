// Tables as text: each line an entry, counted from 0.
// They stay for their promises, `line_at` and `First`: the program reads no such text, but what it says of a number is a line of one (`numbers::sentence`).
ghost use Rattle.std.specs.Prelude.{◌≡◌, ◌==◌, ◌<◌, position, IfSome, unwrap_or};
ghost use Rattle.saying.specs.Table.{line_of, rest_of, line_at, First};

// Where the first line ends, if another can follow.
fn line_end(text: &[u8]) -> Option<usize>
    ensures { result ≡ position (λ byte. byte == 10) text.now }
{
    text.iter().position(|byte| *byte == 10)
}

// The first line, without the byte that ends it.
#[tactic(auto, using(crate::proofs::Lines::line_taken, crate::proofs::Lines::line_whole))]
fn line(text: &[u8]) -> &[u8]
    ensures { result.now ≡ line_of text.now }
{
    match line_end(text) {
        Some(end) => &text[..end],
        None => text,
    }
}

// What stands behind the first line: behind the byte that ends it, or nothing.
#[tactic(auto, using(crate::proofs::Lines::rest_left, crate::proofs::Lines::rest_none))]
fn rest(text: &[u8]) -> &[u8]
    ensures { result.now ≡ rest_of text.now }
{
    match line_end(text) {
        Some(end) => &text[end + 1..],
        None => &text[text.len()..],
    }
}

// The line of a number; behind the last line an empty one.
pub fn entry(text: &[u8], number: usize) -> &[u8]
    ensures { result.now ≡ line_at number text.now }
{
    let mut left = text;
    for _ in 0..number {
        left = rest(left);
    }
    line(left)
}

// The number of the first line, of so many, that is this word.
pub fn place(text: &[u8], entries: usize, word: &[u8]) -> Option<usize>
    ensures upper_bound { IfSome result (λ number. number < entries) }
    ensures first { First text.now entries word.now (unwrap_or result entries) }
{
    let mut left = text;
    for number in 0..entries {
        if line(left) == word {
            return Some(number);
        }
        left = rest(left);
    }
    None
}

// What the report answers beside the bytes that it writes: how many they are, and what the last line says.
ghost use Rattle.std.specs.Prelude.{◌≡◌};
ghost use Rattle.refusals.specs.Numbers.{code_of};
ghost use Rattle.lines.specs.Lines.{answer_line};

use lines::text::Text;
use refusals::{Refusal, number};

#[derive(Clone, Copy, Debug, PartialEq, Eq)]
pub struct Answered {
    pub count: usize,
    pub outcome: Result<(), Refusal>,
}

// A report, and what its last line says.
#[derive(Drop)]
pub struct Page {
    pub text: Text<512>,
    pub outcome: Result<(), Refusal>,
}

// The last line alone, of a number.
pub fn answer_alone(number: u32) -> Text<512>
    ensures { result ≡ answer_line number }
{
    let mut text = Text::new();
    text.put_answer_line(number);
    text
}

// A report that has the last line alone.
pub fn alone(outcome: Result<(), Refusal>) -> Page
    ensures text { result.text ≡ answer_line (code_of outcome) }
    ensures outcome { result.outcome ≡ outcome }
{
    let text = answer_alone(number(outcome));
    Page { text, outcome }
}

// The numbers that a call can give, in words: what it is, and what to do.
ghost use Rattle.std.specs.Prelude.{◌≡◌};
ghost use Rattle.refusals.specs.Numbers.{code};
ghost use Rattle.saying.specs.Table.{line_at};
ghost use Rattle.saying.specs.Sentences.{sentences};

use crate::line::Line;
use refusals::Refusal;
use std::fmt::Write;

// The line of its number in the text of them.
#[tactic(auto, unfolding(crate::specs::Table::line_of, crate::specs::Table::rest_of, crate::specs::Table::rest_at))]
fn words(refusal: Refusal) -> &'static str
    ensures { result.now ≡ line_at (code refusal) sentences }
{
    match refusal {
        Refusal::NotLawful =>
            "an order is not lawful, the key's number is above 255, or a keeper's is outside 1..N of its order: an order T,F,N has T from 1 to 7, F from 0 to T, and N from T+4F+1 to 16",
        Refusal::Length =>
            "the secret's length is outside 1..952: of a longer secret, encrypt it and cut the key that opens it",
        Refusal::Stamp =>
            "the stamp is 0: the first cut of a key has stamp 1, each later one a greater stamp",
        Refusal::Room =>
            "a letter, a sub-letter and a desk have 2048 bytes, and this has not, or --keepers has not T+1 numbers, with the T of --from: ask for the letter anew; a desk that is spoiled, move away and store anew",
        Refusal::Word => "a random word is above 256",
        Refusal::TooFew =>
            "too few usable letters: no T+F+1 of this order and key have one stamp and length: ask more keepers; 'csalgodes show' says what a letter is of",
        Refusal::NoPolynomials =>
            "no polynomials match enough letters: ask more keepers, or look at what changed with 'csalgodes compare'",
        Refusal::NoSecret =>
            "the letters match, but what they give is no secret: more of them are wrong than F: ask more keepers, or look at what changed with 'csalgodes compare'",
        Refusal::LargeWord =>
            "a word is above 256: the letter is damaged, or no letter: ask for it anew",
        Refusal::Check => "a check word is wrong: the letter is damaged: ask for it anew",
        Refusal::Mark =>
            "word 0 or 1 is wrong: it is no letter (or no sub-letter, where one goes), or a damaged one: ask for it anew",
        Refusal::Header =>
            "a header word is wrong: it is no letter, or a damaged one: ask for it anew",
        Refusal::Tail =>
            "what stands past the secret's end is not zero: it is no letter, or a damaged one: ask for it anew",
        Refusal::Older =>
            "it is older than the letter held: the desk keeps the newer one, and all is well unless you know better",
        Refusal::OtherBytes =>
            "it has the stamp of the letter held, and other bytes: the desk keeps what it holds: whoever cuts takes a new stamp for each cut",
        Refusal::NotOurs =>
            "a good letter or sub-letter, but of another order, key, keeper, stamp or length than you told: 'csalgodes show' says what a letter is of: take it to its own desk, or tell what it is of",
        Refusal::NothingHeld =>
            "nothing good of this order, key and keeper is held: store a letter first",
        Refusal::ManyDifferences => "there are more differences than places to list them",
        Refusal::OldKeepers =>
            "an old keeper is repeated, missing, not told, or changes between blocks: list each old keeper once, and put its sub-letter into the file of its number",
        Refusal::StampNotAbove =>
            "the stamp is not above the old letter's: 'csalgodes show' says the old stamp: take a greater one, the same at all old keepers",
    }
}

// What a number means: the line of the text that has it, and behind the last line nothing.
#[tactic(auto, using(crate::proofs::Sentences::unsaid), unfolding(crate::specs::Table::line_of, crate::specs::Table::rest_at))]
pub fn sentence(number: u32) -> &'static str
    ensures { result.now ≡ line_at number sentences }
{
    match Refusal::try_from(number) {
        Ok(refusal) => words(refusal),
        Err(()) if number == 0 => "done",
        Err(()) => "",
    }
}

// Whether it is of a block of a letter, so that its place says more.
fn is_of_a_block(refusal: Refusal) -> bool {
    matches!(
        refusal,
        Refusal::LargeWord | Refusal::Check | Refusal::Mark | Refusal::Header
    )
}

// Says what a number means that a call gave, with the place of the fault in a letter. Of 0 there is nothing to say.
pub fn explain(rt: &HostRuntime, number: u32, place: usize) {
    if number == 0 {
        return;
    }
    let mut line = Line::new();
    let _ = write!(line, "{number}");
    if Refusal::try_from(number).is_ok_and(is_of_a_block) {
        let _ = write!(line, " in block {place}");
    }
    let _ = write!(line, ": {}", sentence(number));
    line.say(rt);
}

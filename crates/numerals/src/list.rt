// Several numbers as one word, with commas between them, as 1,3,4.
ghost use Rattle.std.specs.Prelude.{◌≤◌, length};
ghost use Rattle.numerals.specs.Several.{ListRead};
ghost use Rattle.numerals.specs.SeveralLaws.{PartAt, PartRead};

use crate::number;
use crate::order::comma;

// One of the numbers, and where it ends: at a comma or at the word's end.
#[derive(Clone, Copy, Debug, PartialEq, Eq)]
struct Part {
    value: u32,
    end: usize,
}

// Where the part that begins at a place ends.
fn end_of(word: &[u8], from: usize) -> usize
    requires { from ≤ length word.now }
    ensures { PartAt word.now from result }
{
    match comma(&word[from..]) {
        Some(at) => from + at,
        None => word.len(),
    }
}

// The number that begins at a place.
fn part_at(word: &[u8], from: usize) -> Option<Part>
    requires { from ≤ length word.now }
    ensures { PartRead word.now from result }
{
    let end = end_of(word, from);
    let value = number(&word[from..end])?;
    Some(Part { value, end })
}

// Puts the numbers that a word says into their room, from its start on, and answers how many they are: none where the word is no list of numbers, or where
// they are more than there is room for.
pub fn list(word: &[u8], room: &mut [u32]) -> Option<usize>
    ensures { ListRead word.now (length room.old) room.new result }
{
    let mut from = 0;
    for count in 0..room.len() {
        let part = part_at(word, from)?;
        room[count] = part.value;
        if part.end == word.len() {
            return Some(count + 1);
        }
        from = part.end + 1;
    }
    None
}

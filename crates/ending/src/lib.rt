// How a command ends: with the number of its call, which is said in words; with 99 where trays differ; with 100 where files are the trouble.
#![tactic(auto)]

ghost use Rattle.std.specs.Prelude.{◌≡◌, cond, eqb, pos};
ghost use Rattle.saying.specs.Status.{code};
ghost use Rattle.ending.specs.Status.{status_of, told};

use saying::numbers::explain;
use saying::status::Status;

// A number as a status. The library gives none above 99.
fn as_status(number: u32) -> u8
    ensures { pos result ≡ status_of number }
{
    if number < 100 { number as u8 } else { 100 }
}

// Says what a number means that a call gave, with the place of a fault in a letter, and ends with it.
pub fn answered(rt: &HostRuntime, number: u32, place: usize) -> Status
    ensures { pos (code result) ≡ status_of number }
{
    explain(rt, number, place);
    Status::Answered(as_status(number))
}

// After a comparison: well where no word differs, else 99, which is above all numbers of the library's.
pub fn status_for(count: u32) -> Result<(), Status>
    ensures { pos (told result) ≡ pos (cond (eqb count 0) 0 99) }
{
    if count == 0 {
        Ok(())
    } else {
        Err(Status::Differs)
    }
}

// What the system is told of how a command ended: 0 where all went well.
pub fn written(outcome: Result<(), Status>) -> u8
    ensures { result ≡ told outcome }
{
    match outcome {
        Ok(()) => 0,
        Err(status) => status.code(),
    }
}

// What the words told, as the library takes it, and what the library says of it.
ghost use Rattle.std.specs.Prelude.{◌≤◌};

use ending::answered;
use format::reader::Fault;
use header::told::Told;
use saying::status::Status;

// How many slots a tray has for these: one for each keeper of a lawful order. Where that or the key is not lawful, no tray changes the answer.
#[tactic(auto, unfolding(header::specs::Told::lawful_told, header::specs::Order::lawful_order))]
pub fn slots_of(told: Told) -> u32
    ensures { result ≤ 16 }
{
    if told.is_lawful() {
        told.order.n as u32
    } else {
        0
    }
}

// Says what is wrong with a letter, and in which block.
pub fn faulty(rt: &HostRuntime, fault: Fault) -> Status {
    answered(rt, fault.refusal.number(), fault.place)
}

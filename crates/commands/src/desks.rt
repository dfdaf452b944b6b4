// What a desk's file holds.
ghost use Rattle.std.specs.Prelude.{◌≤◌, IfOk};

use files::load::{Unread, load};
use saying::status::Status;
use std::io::Error;

// Puts what a desk holds into a room of zeros, and answers how many bytes that is. A desk that is not there is a new one, and holds a slot of zeros.
pub fn loaded<N: FnOnce() -> Status, T: FnOnce(Error) -> Status>(
    rt: &HostRuntime,
    desk: &[u8],
    room: &mut [u8; 2049],
    no_file: N,
    trouble: T,
) -> Result<usize, Status>
    requires no_file { N.IsAlwaysCallable no_file }
    requires trouble { T.IsAlwaysCallable trouble }
    ensures { IfOk result (λ count. count ≤ 2049) }
{
    match load(rt, desk, false, room) {
        Ok(slot) => Ok(slot.len()),
        Err(Unread::Missing) => Ok(2048),
        Err(Unread::NoFile) => Err(no_file()),
        Err(Unread::Trouble(error)) => Err(trouble(error)),
    }
}

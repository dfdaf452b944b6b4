// What a file that is open gives, taken until it ends or there is no more room.
ghost use Rattle.std.specs.Prelude.{◌≡◌, ◌≤◌, length, take, IfOk, IsErr};

use std::io::{Error, Read};

// What counts of the bytes that came: so many where no read failed, since else what came need not be all.
fn whole(room: &[u8], count: usize, end: Result<(), Error>) -> Result<&[u8], Error>
    requires { count ≤ length room.now }
    ensures taken { IfOk result (λ part. part.now ≡ take count room.now) }
    ensures failed { IsErr end → IsErr result }
{
    end?;
    Ok(&room[..count])
}

// Takes as much as there is room for.
pub fn taken<'a, R: Read>(file: &mut R, room: &'a mut [u8]) -> Result<&'a [u8], Error>
    ensures { IfOk result (λ part. length part.now ≤ length room.old) }
{
    let mut count = 0;
    let mut end = Ok(());
    while count < room.len() {
        match file.read(&mut room[count..]) {
            Ok(0) => break,
            Ok(more) => count += more,
            Err(error) => {
                end = Err(error);
                break;
            }
        }
    }
    whole(room, count, end)
}

// move-cut --from T,F,N --order T,F,N --key K --length L --stamp S --keeper X LETTER FOLDER: an old keeper's letter becomes a sub-letter for each new keeper.
use crate::move_of;
use commands::cutting::cut_into;
use files::load::given;
use moving::cutting::cut;
use options::given::Given;
use saying::status::Status;

pub fn run(rt: &HostRuntime, g: &Given) -> Result<(), Status> {
    let mut name = io::buffer();
    let mut room = [0u8; 2049];
    let letter = given(rt, g.first_name(rt, &mut name), &mut room)?;
    let keeper = g.keeper;
    let told = move_of(g);
    cut_into(rt, g, told.length, |random, tray| {
        cut(told, keeper, letter, random, tray)
    })
}

// fetch --order T,F,N --key K --keeper X [--replace] DESK LETTER: hands out the letter that a desk holds.
use crate::desks::loaded;
use desk::fetch_or_why;
use ending::answered;
use options::given::Given;
use options::option::Opt;
use saving::save::{is_writable, put_out};
use saying::status::Status;
use saying::{refused, trouble};

// Hands out what a desk holds.
fn hand_out(rt: &HostRuntime, g: &Given, desk: &[u8], out: &[u8]) -> Result<(), Status> {
    let mut room = [0u8; 2049];
    let count = loaded(
        rt,
        desk,
        &mut room,
        || {
            refused(
                rt,
                desk,
                b"is no plain file: a desk is a file of 2048 bytes",
            )
        },
        |error| trouble(rt, desk, b"cannot be read", error),
    )?;
    let letter = fetch_or_why(g.terms.told, g.keeper, &room[..count]).map_err(|refusal| answered(
        rt,
        refusal.number(),
        0,
    ))?;
    put_out(rt, out, letter, g.has(Opt::Replace))
}

pub fn run(rt: &HostRuntime, g: &Given) -> Result<(), Status> {
    let mut desk_room = io::buffer();
    let desk = g.first_name(rt, &mut desk_room);
    let mut out_room = io::buffer();
    let out = g.second_name(rt, &mut out_room);
    is_writable(rt, out, g.has(Opt::Replace))?;
    hand_out(rt, g, desk, out)
}

// store --order T,F,N --key K --keeper X DESK LETTER: offers a letter to a desk, which keeps the newest.
use crate::desks::loaded;
use crate::told::faulty;
use desk::store;
use files::kind::{Kind, Owner, seen};
use files::load::given;
use locks::{held, let_go};
use options::given::Given;
use saving::save::replaced;
use saying::status::Status;
use saying::{refused, trouble};

// Whose the desk is to be: whose it was.
fn owner_of_desk(rt: &HostRuntime, desk: &[u8]) -> Option<Owner> {
    match seen(rt, desk, false) {
        Ok(Some(found)) if found.kind == Kind::File => Some(found.owner),
        _ => None,
    }
}

// Judges the letter against what is held, and puts it in its place, or lets the desk go as it is.
fn offer(
    rt: &HostRuntime,
    g: &Given,
    desk: &[u8],
    slot: &mut [u8],
    letter: &[u8],
) -> Result<(), Status> {
    if let Err(fault) = store(g.terms.told, g.keeper, slot, letter) {
        let_go(rt, desk);
        return Err(faulty(rt, fault));
    }
    replaced(rt, desk, slot, owner_of_desk(rt, desk))
}

// Offers a letter to a desk that is held by its lock.
fn offer_held(rt: &HostRuntime, g: &Given, desk: &[u8], letter: &[u8]) -> Result<(), Status> {
    let mut room = [0u8; 2049];
    let count = loaded(
        rt,
        desk,
        &mut room,
        || {
            let_go(rt, desk);
            refused(
                rt,
                desk,
                b"is no plain file, and stays as it is: a desk is a file of 2048 bytes",
            )
        },
        |error| {
            let status = trouble(rt, desk, b"cannot be read, and stays as it is", error);
            let_go(rt, desk);
            status
        },
    )?;
    offer(rt, g, desk, &mut room[..count], letter)
}

pub fn run(rt: &HostRuntime, g: &Given) -> Result<(), Status> {
    let mut letter_name = io::buffer();
    let mut room = [0u8; 2049];
    let letter = given(rt, g.second_name(rt, &mut letter_name), &mut room)?;
    let mut desk_name = io::buffer();
    let desk = g.first_name(rt, &mut desk_name);
    held(rt, desk)?;
    offer_held(rt, g, desk, letter)
}

// What a join leaves behind: letters with a newer stamp than the one joined.
use desk::stamp_held;
use header::told::Told;
use saying::line::Line;
use std::fmt::Write;

fn say_one(rt: &HostRuntime, keeper: u32, stamp: u32) {
    let mut line = Line::new();
    let _ = write!(
        line,
        "keeper {keeper} has a letter of stamp {stamp}, newer than the one joined"
    );
    line.say(rt);
}

// Says which keepers have a good letter of this order and key with a stamp above one.
pub fn say_newer(rt: &HostRuntime, told: Told, stamp: u32, tray: &[u8]) {
    for (keeper, slot) in (1..=16).zip(tray.chunks_exact(2048)) {
        match stamp_held(told, keeper as usize, slot) {
            Some(held) if held > stamp => say_one(rt, keeper, held),
            _ => {}
        }
    }
}

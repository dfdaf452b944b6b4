// join --order T,F,N --key K [--stamp S --length L] [--replace] TRAY SECRET: the secret of a tray, or why not.
ghost use Rattle.std.specs.Prelude.{◌≤◌};

use crate::found::{say_answer, say_joined};
use crate::newer::say_newer;
use commands::told::slots_of;
use ending::answered;
use files::load::is_dash;
use header::terms::Terms;
use join::{Joined, join};
use options::given::Given;
use options::option::Opt;
use pick::{Picked, pick};
use report_text::has_lines;
use saving::save::{is_writable, put_out};
use saying::refused;
use saying::status::Status;
use system::output::Stream;
use trays::loading::filled;

// What is to be joined: what was told, or what the pick names.
fn chosen(g: &Given, tray: &[u8]) -> Picked {
    if g.has(Opt::Stamp) {
        Picked {
            outcome: Ok(()),
            stamp: g.terms.stamp,
            length: g.terms.length,
        }
    } else {
        pick(g.terms.told, tray)
    }
}

// How much room a secret takes. Too great a length is refused whatever the room.
pub fn room_for(length: usize) -> usize
    ensures { result ≤ 952 }
{
    length.min(952)
}

// Where the lines go: to standard error where standard output is for the secret.
fn lines_to(out: &[u8]) -> Stream {
    if is_dash(out) {
        Stream::Error
    } else {
        Stream::Output
    }
}

// Puts out the secret that a join gave, and says who has a newer letter.
fn put_secret(
    rt: &HostRuntime,
    g: &Given,
    terms: Terms,
    tray: &[u8],
    secret: &[u8],
    out: &[u8],
) -> Result<(), Status> {
    let done = put_out(rt, out, secret, g.has(Opt::Replace));
    say_newer(rt, terms.told, terms.stamp, tray);
    done
}

// Puts the secret out, where there is one, and says what was found.
fn end(
    rt: &HostRuntime,
    g: &Given,
    terms: Terms,
    joined: Joined,
    tray: &[u8],
    secret: &[u8],
    out: &[u8],
) -> Result<(), Status> {
    let done = joined
        .outcome
        .map_or(Ok(()), |()| put_secret(rt, g, terms, tray, secret, out));
    let said = say_joined(rt, lines_to(out), terms, joined, tray);
    done?;
    if let Err(status) = said {
        if joined.outcome.is_ok() {
            refused(rt, out, b"has the secret all the same");
        }
        return Err(status);
    }
    joined
        .outcome
        .map_err(|refusal| answered(rt, refusal.number(), 0))
}

fn join_group(
    rt: &HostRuntime,
    g: &Given,
    terms: Terms,
    tray: &[u8],
    out: &[u8],
) -> Result<(), Status> {
    let mut room = [0u8; 952];
    let secret = &mut room[..room_for(terms.length)];
    let joined = join(terms, tray, secret);
    end(rt, g, terms, joined, tray, secret, out)
}

fn join_tray(rt: &HostRuntime, g: &Given, tray: &[u8], out: &[u8]) -> Result<(), Status> {
    let choice = chosen(g, tray);
    if has_lines(choice.outcome) {
        let terms = Terms {
            told: g.terms.told,
            stamp: choice.stamp,
            length: choice.length,
        };
        return join_group(rt, g, terms, tray, out);
    }
    say_answer(rt, lines_to(out), choice.outcome)?;
    choice
        .outcome
        .map_err(|refusal| answered(rt, refusal.number(), 0))
}

pub fn run(rt: &HostRuntime, g: &Given) -> Result<(), Status> {
    let mut out_name = io::buffer();
    let out = g.second_name(rt, &mut out_name);
    is_writable(rt, out, g.has(Opt::Replace))?;
    let n = slots_of(g.terms.told);
    let mut slots = [0u8; 32768];
    let tray = &mut slots[..2048 * n as usize];
    let mut name = io::buffer();
    filled(rt, g.first_name(rt, &mut name), n, tray)?;
    join_tray(rt, g, tray, out)
}

// show LETTER: what a letter is of.
ghost use Rattle.std.specs.Prelude.{◌≡◌, true};
ghost use Rattle.header.specs.Head.{lawful_head};

use crate::told::faulty;
use files::load::given;
use format::reader::read;
use header::head::Head;
use options::given::Given;
use saving::save::said;
use saying::status::Status;
use showing::put_letter_line;
use system::output::Stream;

// The line of a good letter.
#[tactic(auto, using(header::specs::HeadLaws::lawful_head_facts))]
fn show(rt: &HostRuntime, head: Head) -> Result<(), Status>
    requires { lawful_head head ≡ true }
{
    let order = head.told.order;
    let line = put_letter_line(
        order.t as u32,
        order.f as u32,
        order.n as u32,
        head.told.key as u32,
        head.keeper as u32,
        head.stamp,
        head.length as u32,
    );
    said(rt, Stream::Output, line.bytes())
}

fn show_slot(rt: &HostRuntime, slot: &[u8]) -> Result<(), Status> {
    match read(slot) {
        Ok(head) => show(rt, head),
        Err(fault) => Err(faulty(rt, fault)),
    }
}

pub fn run(rt: &HostRuntime, g: &Given) -> Result<(), Status> {
    let mut name = io::buffer();
    let mut room = [0u8; 2049];
    let slot = given(rt, g.first_name(rt, &mut name), &mut room)?;
    show_slot(rt, slot)
}

// cs_read: what a slot reads as.
ghost use Rattle.std.specs.Prelude.{◌≡◌, true};
ghost use Rattle.header.specs.Head.{lawful_head};
ghost use Rattle.format.specs.Reading.{read_of};
ghost use Rattle.exports.specs.Read.{read_result, numbers};

use format::reader::read;
use header::head::Head;

#[repr(C)]
#[derive(Clone, Copy, Debug, Default, PartialEq, Eq)]
pub struct ReadResult {
    pub number: u32,
    pub place: u32,
    pub t: u32,
    pub f: u32,
    pub n: u32,
    pub key: u32,
    pub keeper: u32,
    pub stamp: u32,
    pub length: u32,
}

fn good(h: Head) -> ReadResult
    requires { lawful_head h ≡ true }
    ensures { result ≡ numbers 0 0 h }
{
    let o = h.told.order;
    ReadResult {
        number: 0,
        place: 0,
        t: o.t as u32,
        f: o.f as u32,
        n: o.n as u32,
        key: h.told.key as u32,
        keeper: h.keeper as u32,
        stamp: h.stamp,
        length: h.length as u32,
    }
}

pub fn cs_read(slot: &[u8]) -> ReadResult
    ensures { result ≡ read_result (read_of slot.now) }
{
    match read(slot) {
        Ok(head) => good(head),
        Err(fault) => ReadResult {
            number: fault.refusal.number(),
            place: fault.place as u32,
            ..ReadResult::default()
        },
    }
}

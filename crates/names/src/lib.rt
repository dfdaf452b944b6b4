// Names of files, as bytes: what is put behind a name, the slots of a tray, the folder that a name stands in.
#![tactic(auto)]

ghost use Rattle.std.specs.Prelude.{◌≡◌, ◌++◌, ◌≤◌, nat_le, length, take, drop};
ghost use Rattle.io.specs.Counts.{IsPrefixLen};
ghost use Rattle.lines.specs.Text.{decimal, text};
ghost use Rattle.names.specs.Names.{Named, NamedBy, Ended, Closed};

use lines::text::Text;

// How many bytes a name has at most, with the 0 at its end.
pub const PATH_MAX: usize = 4096;

const LAST: usize = PATH_MAX - 1;

// Puts bytes at the start of a room.
fn put(out: &mut [u8], bytes: &[u8])
    requires { length bytes.now ≤ length out.old }
    ensures { out.new ≡ bytes.now ++ drop (length bytes.now) out.old }
{
    out[..bytes.len()].copy_from_slice(bytes);
}

// Whether a name with something behind it is no longer than a name can be.
fn fits(name: &[u8], behind: &[u8]) -> bool
    ensures { result ≡ nat_le (length (name.now ++ behind.now)) 4095 }
{
    name.len() <= LAST && behind.len() <= LAST - name.len()
}

// Puts a name with something behind it at the start of a room, and answers how long that is: 0 where it is longer than a name can be.
pub fn put_with(name: &[u8], behind: &[u8], out: &mut [u8; PATH_MAX]) -> usize
    ensures prefix_len { IsPrefixLen result out.new }
    ensures named { Named (name.now ++ behind.now) out.new result }
{
    if !fits(name, behind) {
        return 0;
    }
    let end = name.len() + behind.len();
    let room = &mut out[..];
    room[..name.len()].copy_from_slice(name);
    room[name.len()..end].copy_from_slice(behind);
    end
}

// A name with something behind it; none where it is longer than a name can be.
pub fn with<'a>(name: &[u8], behind: &[u8], out: &'a mut [u8; PATH_MAX]) -> Option<&'a [u8]>
    ensures { NamedBy (name.now ++ behind.now) result }
{
    let end = put_with(name, behind, out);
    if fits(name, behind) {
        Some(&out[..end])
    } else {
        None
    }
}

// What stands behind a tray in the name of a keeper's slot, as "/3".
fn behind_tray(keeper: u32) -> Text<16>
    ensures { result ≡ text "/" ++ decimal keeper }
{
    let mut behind = Text::<16>::new();
    behind.put(b"/");
    behind.put_decimal(keeper);
    behind
}

// Puts the name of a keeper's slot in a tray, as "tray/3", at the start of a room, and answers how long it is, as `put_with`.
pub fn put_slot(tray: &[u8], keeper: u32, out: &mut [u8; PATH_MAX]) -> usize
    ensures prefix_len { IsPrefixLen result out.new }
    ensures named { Named (tray.now ++ (text "/" ++ decimal keeper)) out.new result }
{
    put_with(tray, behind_tray(keeper).bytes(), out)
}

// The name of a keeper's slot in a tray, as "tray/3".
pub fn slot<'a>(tray: &[u8], keeper: u32, out: &'a mut [u8; PATH_MAX]) -> Option<&'a [u8]>
    ensures { NamedBy (tray.now ++ (text "/" ++ decimal keeper)) result }
{
    with(tray, behind_tray(keeper).bytes(), out)
}

// The folder of a name, the last '/' at its end: nothing where it has none.
pub fn folder(name: &[u8]) -> &[u8]
    ensures { result.now ≡ take (length result.now) name.now }
{
    match name.iter().rposition(|&byte| byte == b'/') {
        Some(last) => &name[..last + 1],
        None => &name[..0],
    }
}

// A name without the '/' at its end. One '/' alone stays.
pub fn trimmed(name: &[u8]) -> &[u8]
    ensures { result.now ≡ take (length result.now) name.now }
{
    let mut rest = name;
    while rest.len() > 1 && rest[rest.len() - 1] == b'/' {
        rest = &rest[..rest.len() - 1];
    }
    rest
}

// A name as C takes it, with a 0 at its end. One that is too long gives an empty name, which no file has.
// It stays for its promise, `Closed`: the library makes such names of its own.
pub fn ended(name: &[u8]) -> [u8; PATH_MAX]
    ensures ended { Ended result }
    ensures closed { Closed name.now result }
{
    let mut out = [0u8; PATH_MAX];
    if name.len() > LAST {
        return out;
    }
    put(&mut out, name);
    out
}

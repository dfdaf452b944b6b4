// What the system says and does of files by their names, the words that the program was called with, and standard input and output, whole.
#![tactic(auto)]

use std::fs;
use std::fs::Metadata;
use std::io::Error;

pub mod input;
pub mod named;
pub mod output;
pub mod words;

// The system's number for bytes that are no text.
const EILSEQ: i32 = 84;

// A name as the library takes it, which opens names in UTF-8 alone. Any other is answered as one that the system does not take.
pub fn as_text(name: &[u8]) -> Result<&str, Error> {
    str::from_utf8(name).map_err(|_| Error::from_raw_os_error(EILSEQ))
}

// Says what stands at a name: of a link the link itself, or where follows is true what it leads to.
pub fn known(rt: &HostRuntime, name: &[u8], follows: bool) -> Result<Metadata, Error> {
    let text = as_text(name)?;
    if follows {
        fs::metadata(rt, text)
    } else {
        fs::symlink_metadata(rt, text)
    }
}

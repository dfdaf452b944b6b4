// Standard output and standard error.
use std::fs;
use std::fs::File;
use std::io::{Error, Print};

#[derive(Clone, Copy, Debug, PartialEq, Eq)]
pub enum Stream {
    Output,
    Error,
}

// Writes all of the bytes, or says why not.
pub fn put(rt: &HostRuntime, to: Stream, bytes: &[u8]) -> Result<(), Error> {
    match to {
        Stream::Output => rt.stdout().write_all(bytes),
        Stream::Error => rt.stderr().write_all(bytes),
    }
}

// The system's own name for what standard output is open on.
const OUTPUT: &str = "/proc/self/fd/1";

// The system's number for what is no file that can be synced.
const EINVAL: i32 = 22;

fn is_file(rt: &HostRuntime, name: &str) -> bool {
    fs::metadata(rt, name).is_ok_and(|found| found.is_file())
}

// Some file systems know no such call, and say EINVAL.
pub fn synced(file: &File) -> Result<(), Error> {
    match file.sync_all() {
        Err(error) if error.raw_os_error() == Some(EINVAL) => Ok(()),
        outcome => outcome,
    }
}

// Whether what was written to standard output is kept, where that is a file: a file system may say only when it is asked that it had no room.
pub fn settled(rt: &HostRuntime) -> Result<(), Error> {
    if !is_file(rt, OUTPUT) {
        return Ok(());
    }
    match File::open(rt, OUTPUT) {
        Ok(file) => synced(&file),
        Err(_) => Ok(()),
    }
}

// Standard output, whole or not at all. A file system may say only at the end that it had no room.
pub fn wrote(rt: &HostRuntime, bytes: &[u8]) -> Result<(), Error> {
    put(rt, Stream::Output, bytes)?;
    settled(rt)
}

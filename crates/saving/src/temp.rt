// A new file under a name that no other has.
use std::fs::File;
use std::io::{Error, ErrorKind};
use std::process;
use std::random::RandomSource;
use system::named::created;

// 62 letters and digits.
const SIGNS: [u8; 62] = *b"abcdefghijklmnopqrstuvwxyzABCDEFGHIJKLMNOPQRSTUVWXYZ0123456789";

// As many names as are tried where others have them.
const TRIES: u32 = 238328;

// Where the names to try begin: at a random one, or where the system gives no random bytes at one of this process.
fn first_number(rt: &HostRuntime) -> u64 {
    let mut bytes = [0u8; 8];
    match rt.fill_bytes(&mut bytes) {
        Ok(()) => u64::from_le_bytes(bytes),
        Err(_) => u64::from(process::id(rt.process())),
    }
}

// Puts six signs at the end of a name, which a number gives.
fn put_signs(name: &mut [u8], number: u64) {
    let mut left = number;
    for place in name.iter_mut().rev().take(6) {
        *place = SIGNS[(left % 62) as usize];
        left /= 62;
    }
}

// Puts six X at the end of a name.
fn put_marks(name: &mut [u8]) {
    for place in name.iter_mut().rev().take(6) {
        *place = b'X';
    }
}

fn made(rt: &HostRuntime, name: &mut [u8]) -> Result<File, Error> {
    let mut number = first_number(rt);
    let mut last = Error::from(ErrorKind::AlreadyExists);
    for _ in 0..TRIES {
        put_signs(name, number);
        match created(rt, name, 0o600) {
            Err(error) if error.kind() == ErrorKind::AlreadyExists => last = error,
            outcome => return outcome,
        }
        number = number.wrapping_add(7777);
    }
    Err(last)
}

// Makes the file, its owner's alone. The name ends in XXXXXX, in place of which it then has other signs; or it stays as it is, where no file was made.
pub fn created_temp(rt: &HostRuntime, name: &mut [u8]) -> Result<File, Error> {
    let outcome = made(rt, name);
    if outcome.is_err() {
        put_marks(name);
    }
    outcome
}

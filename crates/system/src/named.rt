// Files and folders by their names.
use crate::as_text;
use std::fs;
use std::fs::{DirBuilder, File, OpenOptions};
use std::io::Error;
use std::os::unix::fs::{DirBuilderExt, OpenOptionsExt};

// Opens a file or a folder for reading.
pub fn opened(rt: &HostRuntime, name: &[u8]) -> Result<File, Error> {
    File::open(rt, as_text(name)?)
}

// Makes a file that is not there, with some mode, and opens it for writing.
pub fn created(rt: &HostRuntime, name: &[u8], mode: u32) -> Result<File, Error> {
    let text = as_text(name)?;
    let mut options = OpenOptions::new();
    options.write(true).create_new(true).mode(mode);
    options.open(rt, text)
}

pub fn removed(rt: &HostRuntime, name: &[u8]) -> Result<(), Error> {
    fs::remove_file(rt, as_text(name)?)
}

pub fn renamed(rt: &HostRuntime, from: &[u8], to: &[u8]) -> Result<(), Error> {
    fs::rename(rt, as_text(from)?, as_text(to)?)
}

// Makes a folder with some mode.
pub fn folder_made(rt: &HostRuntime, name: &[u8], mode: u32) -> Result<(), Error> {
    let text = as_text(name)?;
    let mut builder = DirBuilder::new();
    builder.mode(mode);
    builder.create(rt, text)
}

// Removes a folder that is empty.
pub fn folder_removed(rt: &HostRuntime, name: &[u8]) -> Result<(), Error> {
    fs::remove_dir(rt, as_text(name)?)
}

// What stands at a name. It is asked before a file is opened or replaced: the open of a pipe can wait for ever.
use std::fs::Metadata;
use std::io::{Error, ErrorKind};
use std::os::unix::fs::MetadataExt;
use system::known;

#[derive(Clone, Copy, Debug, PartialEq, Eq)]
pub enum Kind {
    File,
    Folder,
    Link,
    Other,
}

// Whose a file is.
#[derive(Clone, Copy, Debug, PartialEq, Eq)]
pub struct Owner {
    pub user: u32,
    pub group: u32,
}

#[derive(Clone, Copy, Debug, PartialEq, Eq)]
pub struct Place {
    pub kind: Kind,
    pub owner: Owner,
}

fn kind_of(found: &Metadata) -> Kind {
    if found.is_file() {
        Kind::File
    } else if found.is_dir() {
        Kind::Folder
    } else if found.is_symlink() {
        Kind::Link
    } else {
        Kind::Other
    }
}

fn place_of(found: &Metadata) -> Place {
    Place {
        kind: kind_of(found),
        owner: Owner {
            user: found.uid(),
            group: found.gid(),
        },
    }
}

// What stands at a name, if anything does: a link itself, or where follows is true what it leads to.
pub fn seen(rt: &HostRuntime, name: &[u8], follows: bool) -> Result<Option<Place>, Error> {
    match known(rt, name, follows) {
        Ok(found) => Ok(Some(place_of(&found))),
        Err(error) => match error.kind() {
            ErrorKind::NotFound | ErrorKind::NotADirectory => Ok(None),
            _ => Err(error),
        },
    }
}

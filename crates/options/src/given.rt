// What the words say.
ghost use Rattle.std.specs.Prelude.{◌<◌, ◌^◌};

use crate::option::{Opt, Opts};
use header::order::Order;
use header::terms::Terms;
use header::told::Told;
use system::words::word;

#[derive(Clone, Copy)]
pub struct Given {
    // the options given
    pub seen: Opts,
    // the order and the key, the stamp and the length; 0 where they are not told
    pub terms: Terms,
    // the order from which a key is moved
    pub old: Order,
    pub keeper: usize,
    // which word lists the old keepers
    pub keepers: Option<usize>,
    // which words are names
    pub first: Option<usize>,
    pub second: Option<usize>,
    ghost key_small: { terms.told.key < 2 ^ 32 },
}

// The order before one is told, which is not lawful.
const UNTOLD: Order = Order { t: 0, f: 0, n: 0 };

impl Given {
    // Before any word is read.
    pub fn new() -> Given {
        let told = Told {
            order: UNTOLD,
            key: 0,
        };
        Given {
            seen: Opts::default(),
            terms: Terms {
                told,
                stamp: 0,
                length: 0,
            },
            old: UNTOLD,
            keeper: 0,
            keepers: None,
            first: None,
            second: None,
        }
    }

    pub fn has(&self, option: Opt) -> bool {
        self.seen.has(option)
    }

    // The first name, put into a room.
    pub fn first_name<'a>(&self, rt: &HostRuntime, room: &'a mut [u8]) -> &'a [u8] {
        named(rt, self.first, room)
    }

    pub fn second_name<'a>(&self, rt: &HostRuntime, room: &'a mut [u8]) -> &'a [u8] {
        named(rt, self.second, room)
    }
}

// The word at a place; where there is none, an empty one, which names no file.
fn named<'a>(rt: &HostRuntime, at: Option<usize>, room: &'a mut [u8]) -> &'a [u8] {
    match at {
        Some(at) => word(rt, at, room).unwrap_or(&[]),
        None => &[],
    }
}

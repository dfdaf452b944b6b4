// The head of a letter: what the header words of each of its blocks say.
ghost use Rattle.std.specs.Prelude.{◌≡◌, true, ◌<◌, length, get_or};
ghost use Rattle.block.specs.Words.{words_of};
ghost use Rattle.header.specs.Head.{lawful_head, head_words, order_of, told_of, stamp_of, length_of, head_of, low_byte};

use crate::order::Order;
use crate::terms::{lawful_length, lawful_stamp};
use crate::told::Told;
use block::words::word_at;

#[derive(Clone, Copy, Debug, PartialEq, Eq)]
pub struct Head {
    pub told: Told,
    pub keeper: usize,
    pub stamp: u32,
    pub length: usize,
}

impl Head {
    #[tactic(auto, unfolding(crate::specs::Head::lawful_head))]
    pub fn is_lawful(self) -> bool
        ensures { result ≡ lawful_head self }
    {
        self.told.is_lawful()
            && self.told.order.has_keeper(self.keeper)
            && lawful_stamp(self.stamp)
            && lawful_length(self.length)
    }
}

// Words 0..15 of block p, with a mark in word 0 and a number in word 14.
#[tactic(auto, using(crate::specs::HeadLaws::lawful_head_facts))]
pub fn words(mark: u16, from: u16, h: Head, p: usize) -> [u16; 16]
    requires { (lawful_head h ≡ true) × (p < 4) }
    ensures { result ≡ head_words mark from h p }
{
    let Told { order, key } = h.told;
    let stamp = h.stamp.to_be_bytes();
    let length = (h.length as u16).to_be_bytes();
    [
        mark,
        1,
        order.t as u16,
        order.f as u16,
        order.n as u16,
        h.keeper as u16,
        u16::from(stamp[0]),
        u16::from(stamp[1]),
        u16::from(stamp[2]),
        u16::from(stamp[3]),
        u16::from(length[0]),
        u16::from(length[1]),
        p as u16,
        key as u16,
        from,
        0,
    ]
}

// The low byte of word i of a block.
fn low(block: &[u8], i: usize) -> u8
    requires { (length block.now ≡ 512) × (i < 256) }
    ensures { result ≡ low_byte (words_of block.now) i }
{
    (word_at(block, i) % 256) as u8
}

// Word i of a block.
fn wide(block: &[u8], i: usize) -> usize
    requires { (length block.now ≡ 512) × (i < 256) }
    ensures { result ≡ get_or (words_of block.now) i 0 }
{
    usize::from(word_at(block, i))
}

fn order_of(block: &[u8]) -> Order
    requires { length block.now ≡ 512 }
    ensures { result ≡ order_of (words_of block.now) }
{
    Order {
        t: wide(block, 2),
        f: wide(block, 3),
        n: wide(block, 4),
    }
}

fn told_of(block: &[u8]) -> Told
    requires { length block.now ≡ 512 }
    ensures { result ≡ told_of (words_of block.now) }
{
    let order = order_of(block);
    Told {
        order,
        key: wide(block, 13),
    }
}

fn stamp_of(block: &[u8]) -> u32
    requires { length block.now ≡ 512 }
    ensures { result ≡ stamp_of (words_of block.now) }
{
    u32::from_be_bytes([low(block, 6), low(block, 7), low(block, 8), low(block, 9)])
}

fn length_of(block: &[u8]) -> usize
    requires { length block.now ≡ 512 }
    ensures { result ≡ length_of (words_of block.now) }
{
    usize::from(u16::from_be_bytes([low(block, 10), low(block, 11)]))
}

// What the header words of a block say.
pub fn head_of(block: &[u8]) -> Head
    requires { length block.now ≡ 512 }
    ensures { result ≡ head_of (words_of block.now) }
{
    let told = told_of(block);
    Head {
        told,
        keeper: wide(block, 5),
        stamp: stamp_of(block),
        length: length_of(block),
    }
}

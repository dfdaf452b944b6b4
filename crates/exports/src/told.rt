// An order as callers tell it, three numbers; and the number of a key beside it.
ghost use Rattle.std.specs.Prelude.{◌≡◌};
ghost use Rattle.exports.specs.Told.{order_told, as_told};

use header::order::Order;
use header::told::Told;

// A usize is made From no u32, though it holds each.
pub fn order_told(t: u32, f: u32, n: u32) -> Order
    ensures { result ≡ order_told t f n }
{
    Order {
        t: t as usize,
        f: f as usize,
        n: n as usize,
    }
}

pub fn as_told(t: u32, f: u32, n: u32, key: u32) -> Told
    ensures { result ≡ as_told t f n key }
{
    let order = order_told(t, f, n);
    Told {
        order,
        key: key as usize,
    }
}

// Calls for the tests alone, of functions that other crates can call and C cannot. The library that C gets does not have them.
#![tactic(auto)]

ghost use Rattle.std.specs.Prelude.{◌≡◌, unwrap_or, ◌∷◌};
ghost use Rattle.algebra.specs.Poly.{eval};
ghost use Rattle.field.specs.Modulo.{mod257};
ghost use Rattle.shares.specs.Words.{WordsDone};
ghost use Rattle.chance.specs.Draw.{drawn as Draw·drawn};

use chance::drawn;
use header::order::Order;
use refusals::number;
use shares::value::share_word;
use shares::words::cut;

#[unsafe(no_mangle)]
pub extern "C" fn inner_cut_words(
    t: u32,
    f: u32,
    n: u32,
    constants: &[u16],
    random: &[u16],
    rows: &mut [u16],
) -> u32
    ensures { WordsDone mod257 (record { t = t; f = f; n = n }) constants.now random.now rows.old result rows.new }
{
    let o = Order {
        t: t as usize,
        f: f as usize,
        n: n as usize,
    };
    number(cut(o, constants, random, rows))
}

#[unsafe(no_mangle)]
pub extern "C" fn inner_share_word(constant: u16, coefficients: &[u16], x: u16) -> u16
    ensures { result ≡ eval mod257 (constant ∷ coefficients.now) x }
{
    share_word(constant, coefficients, x)
}

// The word that a draw gives, or 257 where it gives none and is drawn again.
#[unsafe(no_mangle)]
pub extern "C" fn inner_drawn(draw: u16) -> u32
    ensures { result ≡ unwrap_or (Draw·drawn draw) 257 }
{
    drawn(draw).map_or(257, u32::from)
}

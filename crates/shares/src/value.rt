// The cutting of one value.
ghost use Rattle.std.specs.Prelude.{◌≡◌, ◌∷◌};
ghost use Rattle.algebra.specs.Poly.{eval};
ghost use Rattle.field.specs.Modulo.{mod257};

use field::{add, mul};

// The share word at x of a constant behind its coefficients of x, x^2, .. in that order. Any words are taken.
pub fn share_word(constant: u16, coefficients: &[u16], x: u16) -> u16
    ensures { result ≡ eval mod257 (constant ∷ coefficients.now) x }
{
    let mut value: u16 = 0;
    for i in (0..coefficients.len()).rev() {
        value = add(coefficients[i], mul(x, value));
    }
    add(constant, mul(x, value))
}

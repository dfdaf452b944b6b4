// The cut of a secret.
ghost use Rattle.std.specs.Prelude.{◌≡◌, length};
ghost use Rattle.refusals.specs.Numbers.{code_of};
ghost use Rattle.field.specs.Modulo.{mod257};
ghost use Rattle.cut.specs.Cut.{cut_number, cut_tray, CutDone};

use crate::letters::write_letters;
use crate::refusal::judge;
use header::terms::Terms;
use header::told::Told;
use refusals::Refusal;
use shares::columns::lay_out;

// The constants: the secret's bytes, as words.
fn put_bytes(secret: &[u8], row: &mut [u16])
    requires { length row.old ≡ length secret.now }
    ensures { row.new ≡ secret.now }
{
    for (i, byte) in secret.iter().enumerate() {
        row[i] = u16::from(*byte);
    }
}

// Fills a tray with a letter for each keeper, of what is not refused. 7616 words are the longest secret's eight columns.
fn fill(terms: Terms, secret: &[u8], random: &[u16], tray: &mut [u8])
    requires length { terms.length ≡ length secret.now }
    requires right { cut_number terms.told terms.stamp secret.now random.now tray.old ≡ 0 }
    ensures { tray.new ≡ cut_tray mod257 terms.told terms.stamp secret.now random.now }
{
    let size = terms.length * (terms.told.order.t + 1);
    let mut columns_room = [0u16; 7616];
    let mut row_room = [0u16; 952];
    let columns = &mut columns_room[..size];
    let row = &mut row_room[..terms.length];
    put_bytes(secret, row);
    lay_out(row, random, terms.told.order.t, columns);
    write_letters(terms, columns, row, tray);
}

// Cuts a secret into letters. A refused cut leaves the tray as it was.
#[tactic(auto, using(shares::specs::Fills::fills, shares::specs::Fills::refuses, refusals::specs::Numbers::code_some))]
pub fn cut(
    told: Told,
    stamp: u32,
    secret: &[u8],
    random: &[u16],
    tray: &mut [u8],
) -> Result<(), Refusal>
    ensures { CutDone mod257 told stamp secret.now random.now tray.old (code_of result) tray.new }
{
    let terms = Terms {
        told,
        stamp,
        length: secret.len(),
    };
    judge(terms, secret, random, tray)?;
    fill(terms, secret, random, tray);
    Ok(())
}

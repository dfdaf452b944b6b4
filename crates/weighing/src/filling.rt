// The letter that sub-letters weigh out to.
ghost use Rattle.std.specs.Prelude.{◌≡◌, true, length};
ghost use Rattle.header.specs.Head.{lawful_head};
ghost use Rattle.field.specs.Modulo.{mod257};
ghost use Rattle.tray.specs.Tray.{head_for};
ghost use Rattle.weighing.specs.Lent.{Weighable};
ghost use Rattle.weighing.specs.Weighing.{weighed_words, weighed_letter};

use format::letter::write;
use format::reader::take_shares;
use moving::terms::Move;
use tray::{head_for, slot_of};
use weigh::{add_row, factor_of, reduce};

// Fills a row with the weighed words of sub-letters: each word times the factor that carries its old keeper's value to zero, added.
fn weigh_rows(froms: &[u16], letters: &[u8], row: &mut [u16])
    requires { Weighable froms.now letters.now row.old }
    ensures { row.new ≡ weighed_words mod257 letters.now (length froms.now) (length row.old) }
{
    let mut sums = [0u32; 952];
    let size = row.len();
    for (k, from) in froms.iter().enumerate() {
        take_shares(slot_of(letters, k + 1), row);
        add_row(&mut sums[..size], row, factor_of(froms, *from, 0));
    }
    reduce(&sums[..size], row);
}

// Writes the new keeper's letter. The row is room to work in.
pub fn fill(m: Move, froms: &[u16], keeper: usize, letters: &[u8], row: &mut [u16], slot: &mut [u8])
    requires weighable { Weighable froms.now letters.now row.old }
    requires row_length { length row.old ≡ m.length }
    requires head { lawful_head (head_for m.told m.stamp m.length keeper) ≡ true }
    requires room { length slot.old ≡ 2048 }
    ensures { slot.new ≡ weighed_letter mod257 m keeper letters.now (length froms.now) }
{
    weigh_rows(froms, letters, row);
    write(head_for(m.terms(), keeper), row, slot);
}

// The letters of a cut, of the columns that its secret and its random words are laid out in.
ghost use Rattle.std.specs.Prelude.{◌≡◌, true, suc, ◌+◌, ◌*◌, length};
ghost use Rattle.lists.specs.Below.{Below};
ghost use Rattle.lists.specs.Pieces.{pieces};
ghost use Rattle.field.specs.Modulo.{mod257};
ghost use Rattle.header.specs.Head.{lawful_head};
ghost use Rattle.tray.specs.Tray.{head_for};
ghost use Rattle.cut.specs.Letters.{letter_from, LettersLent};

use format::letter::write;
use header::terms::Terms;
use shares::rows::share_row;
use tray::head_for;

// Writes keeper x's letter into its slot. The row is room to work in.
fn write_letter(terms: Terms, columns: &[u16], x: usize, row: &mut [u16], slot: &mut [u8])
    requires head { lawful_head (head_for terms.told terms.stamp terms.length x) ≡ true }
    requires row_length { length row.old ≡ terms.length }
    requires as_long { length columns.now ≡ terms.length * (terms.told.order.t + 1) }
    requires words { Below 257 columns.now }
    requires room { length slot.old ≡ 2048 }
    ensures { slot.new ≡ letter_from mod257 terms.told terms.stamp columns.now terms.length x }
{
    share_row(columns, terms.told.order.t, x, row);
    write(head_for(terms, x), row, slot);
}

// Fills a tray: the letters of keepers 1..n, in their order.
pub fn write_letters(terms: Terms, columns: &[u16], row: &mut [u16], tray: &mut [u8])
    requires lent { LettersLent terms.told terms.stamp columns.now terms.length (length tray.old) }
    requires row_length { length row.old ≡ terms.length }
    ensures { tray.new ≡ pieces (λ k. letter_from mod257 terms.told terms.stamp columns.now terms.length (suc k)) terms.told.order.n }
{
    for k in 0..terms.told.order.n {
        let at = 2048 * k;
        write_letter(terms, columns, k + 1, row, &mut tray[at..at + 2048]);
    }
}

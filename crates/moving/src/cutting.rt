// Cutting an old keeper's letter into sub-letters, one for each new keeper.
ghost use Rattle.std.specs.Prelude.{◌≡◌, suc, ◌*◌, length};
ghost use Rattle.lists.specs.Pieces.{pieces};
ghost use Rattle.refusals.specs.Numbers.{code_of};
ghost use Rattle.field.specs.Modulo.{mod257};
ghost use Rattle.format.specs.Letter.{slot_bytes};
ghost use Rattle.format.specs.Reading.{read_of, shares_of, place_of};
ghost use Rattle.tray.specs.Tray.{head_for};
ghost use Rattle.shares.specs.Words.{row_of};
ghost use Rattle.moving.specs.Cutting.{sub_tray, cut_lent, cut_refusal, old_number, old_letter, move_cut_number, cutting_of, MoveCutDone};
ghost use Rattle.moving.specs.Lent.{MoveTerms};

use crate::terms::Move;
use block::bounds::within;
use format::letter::write_as;
use format::reader::{Fault, read, take_shares};
use header::head::Head;
use header::terms::Terms;
use refusals::Refusal;
use shares::lent::{judge_lent, lent_right};
use shares::words;
use tray::head_for;

// Whether the parts that are lent have their lengths.
fn is_lent(m: Move, letter: &[u8], random: &[u16], tray: &[u8]) -> bool
    requires { MoveTerms m }
    ensures { result ≡ cut_lent m letter.now random.now tray.now }
{
    letter.len() == 2048 && lent_right(m.told.order, m.length, random.len(), 2048, tray.len())
}

// The first refusal of what is told and lent.
fn judge_told(
    m: Move,
    keeper: usize,
    letter: &[u8],
    random: &[u16],
    tray: &[u8],
) -> Result<(), Refusal>
    ensures { code_of result ≡ cut_refusal m keeper letter.now random.now tray.now }
{
    m.judge(m.old.has_keeper(keeper))?;
    judge_lent(is_lent(m, letter, random, tray), within(random, 256))
}

// A good letter against what was told.
#[tactic(auto, unfolding(header::specs::Head::same_head, header::specs::Told::same_told, header::specs::Order::same_order))]
fn judge_head(m: Move, keeper: usize, h: Head) -> Result<(), Refusal>
    ensures { code_of result ≡ old_number m keeper h }
{
    let told = Terms {
        told: m.old_told(),
        stamp: h.stamp,
        length: m.length,
    };
    if h != head_for(told, keeper) {
        return Err(Refusal::NotOurs);
    }
    if h.stamp < m.stamp {
        Ok(())
    } else {
        Err(Refusal::StampNotAbove)
    }
}

fn judge_letter(m: Move, keeper: usize, letter: &[u8]) -> Result<(), Fault>
    ensures { cutting_of result ≡ record { number = old_letter m keeper (read_of letter.now); place = place_of (read_of letter.now) } }
{
    let head = read(letter)?;
    judge_head(m, keeper, head)?;
    Ok(())
}

// Writes the rows of the new keepers as sub-letters, keeper 1's first.
#[tactic(auto, using(crate::specs::CuttingLaws::row_within, crate::specs::CuttingLaws::rows_few))]
fn write_subs(m: Move, from: u16, rows: &[u16], tray: &mut [u8])
    requires terms { MoveTerms m }
    requires rows_length { length rows.now ≡ m.length * m.told.order.n }
    requires tray_length { length tray.old ≡ 2048 * m.told.order.n }
    ensures { tray.new ≡ pieces (λ k. slot_bytes 82 from (head_for m.told m.stamp m.length (suc k)) (row_of rows.now m.length (suc k))) m.told.order.n }
{
    let l = m.length;
    for k in 0..m.told.order.n {
        let row = l * k;
        let at = 2048 * k;
        write_as(
            82,
            from,
            head_for(m.terms(), k + 1),
            &rows[row..row + l],
            &mut tray[at..at + 2048],
        );
    }
}

// Fills a tray with the sub-letters of a letter, of what is not refused. 15232 words are the longest letter's, for 16 keepers.
fn fill(m: Move, keeper: usize, letter: &[u8], random: &[u16], tray: &mut [u8])
    requires { move_cut_number m keeper letter.now random.now tray.old ≡ 0 }
    ensures { tray.new ≡ sub_tray mod257 m.told m.stamp keeper (shares_of letter.now m.length) random.now }
{
    let size = m.length * m.told.order.n;
    let mut row_room = [0u16; 952];
    let mut rows_room = [0u16; 15232];
    let row = &mut row_room[..m.length];
    let rows = &mut rows_room[..size];
    take_shares(letter, row);
    // It is not refused: a good letter's share words can be cut, and what else it is told and lent was judged before.
    let _ = words::cut(m.told.order, row, random, rows);
    let from = keeper as u16;
    write_subs(m, from, rows, tray);
}

// Cuts an old keeper's letter into sub-letters. A refused cutting leaves the tray as it was.
pub fn cut(
    m: Move,
    keeper: usize,
    letter: &[u8],
    random: &[u16],
    tray: &mut [u8],
) -> Result<(), Fault>
    ensures { MoveCutDone mod257 m keeper letter.now random.now tray.old (cutting_of result) tray.new }
{
    judge_told(m, keeper, letter, random, tray)?;
    judge_letter(m, keeper, letter)?;
    fill(m, keeper, letter, random, tray);
    Ok(())
}

// A tray of slots: the one scan that gathers its usable letters.
#![tactic(auto)]

ghost use Rattle.std.specs.Prelude.{◌≡◌, ◌*◌, ◌≤◌, length};
ghost use Rattle.tray.specs.Tray.{slot_of, head_for};
ghost use Rattle.tray.specs.Scan.{Scannable, Scanned};

use format::reader::{read, take_shares};
use header::head::Head;
use header::terms::Terms;

// The slot of keeper x.
pub fn slot_of(tray: &[u8], x: usize) -> &[u8]
    requires { (1 ≤ x) × (x ≤ 16) × (2048 * x ≤ length tray.now) }
    ensures { result.now ≡ slot_of tray.now x }
{
    let from = 2048 * (x - 1);
    &tray[from..from + 2048]
}

// The head that keeper x's letter has.
pub fn head_for(terms: Terms, x: usize) -> Head
    ensures { result ≡ head_for terms.told terms.stamp terms.length x }
{
    Head {
        told: terms.told,
        keeper: x,
        stamp: terms.stamp,
        length: terms.length,
    }
}

// The usable keepers of a tray, as a set; their share words go into the rows, 952 words for each keeper.
pub fn scan(terms: Terms, tray: &[u8], rows: &mut [u16]) -> u16
    requires { Scannable terms.told terms.length tray.now rows.old }
    ensures { Scanned terms.told terms.stamp terms.length tray.now result rows.new }
{
    let l = terms.length;
    let mut set: u16 = 0;
    for k in 0..terms.told.order.n {
        let slot = slot_of(tray, k + 1);
        let Ok(head) = read(slot) else {
            continue;
        };
        if head == head_for(terms, k + 1) {
            let row = 952 * k;
            take_shares(slot, &mut rows[row..row + l]);
            set += 1 << k;
        }
    }
    set
}

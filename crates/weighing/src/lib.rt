// Weighing the sub-letters of enough old keepers into a new keeper's letter.
#![tactic(auto)]

ghost use Rattle.std.specs.Prelude.{◌≡◌, length};
ghost use Rattle.field.specs.Modulo.{mod257};
ghost use Rattle.sub_letters.specs.Judging.{weigh_refusal, weighing_of};
ghost use Rattle.sub_letters.specs.Subs.{froms_of};
ghost use Rattle.weighing.specs.Weighing.{WeighDone};

use crate::filling::fill;
use moving::terms::Move;
use sub_letters::judging::{SubFault, judge, judge_told};
use sub_letters::keepers::words_of;
use sub_letters::subs::froms_of;

mod filling;

// Judges the sub-letters, and writes the letter where nothing is wrong with them. The froms are the old keepers that they name.
fn weigh_told(
    m: Move,
    keepers: &[u16],
    froms: &[u16],
    keeper: usize,
    letters: &[u8],
    slot: &mut [u8],
) -> Result<(), SubFault>
    requires right { weigh_refusal m keepers.now keeper letters.now slot.old ≡ 0 }
    requires named { froms.now ≡ froms_of letters.now (length keepers.now) }
    ensures { WeighDone mod257 m keepers.now keeper letters.now slot.old (weighing_of result) slot.new }
{
    judge(m, keepers, froms, keeper, letters)?;
    let l = m.length;
    let mut row = [0u16; 952];
    fill(m, froms, keeper, letters, &mut row[..l], slot);
    Ok(())
}

// Weighs sub-letters into a letter. A refused weighing leaves the slot as it was. Eight old keepers are the most.
pub fn weigh(
    m: Move,
    keepers: &[u32],
    keeper: usize,
    letters: &[u8],
    slot: &mut [u8],
) -> Result<(), SubFault>
    ensures { WeighDone mod257 m keepers.now keeper letters.now slot.old (weighing_of result) slot.new }
{
    judge_told(m, keepers, keeper, letters, slot)?;
    let count = keepers.len();
    let told = words_of(keepers);
    let froms = froms_of(letters, count);
    weigh_told(m, &told[..count], &froms[..count], keeper, letters, slot)
}

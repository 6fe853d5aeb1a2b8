// The table of slots: a lent run of 16-bit owners. Does it belong to a roster, a fresh layout, and the move to a roster's shares.
#![tactic(auto)]

ghost use Rattle.std.specs.Prelude.{◌≡◌, true, length, replicate, IfOk};
ghost use Rattle.base.specs.Lists.{padded};
ghost use Rattle.base.specs.Sizes.{slots_fit};
ghost use Rattle.base.specs.Refusals.{answer_of};
ghost use Rattle.base.specs.Rows.{lowest};
ghost use Rattle.table.specs.Table.{shares, rearranged, freed_slots};
ghost use Rattle.table.specs.Answers as answers;
ghost use Rattle.table.specs.Told.{told_check, told_move, WithSlot};
ghost use Rattle.table.specs.Laws.{FreshBelongs, RearrangedBelongs, NoHostsZero, BelongingStays, FewestMoves, FreedIsLacked, RowsRise};
ghost use Rattle.table.specs.Laws.{Sized, CheckFixed, LayoutFixed, MoveFixed, CheckTold, LayoutTold, MoveTold};

mod misfit;
mod owning;

use base::Refusal;
pub use misfit::Misfit;
use owning::Owners;
use roster::{Roster, ValidRoster};

// The rows of sizes, which every call checks first; with them right, the roster as one that breaks no rule.
// Each call begins with its own two lines of this, since its rows stand in its own table; and roster and slot count stay apart, as public signatures hand them in.
fn sized(r: Roster, slots: u32, length: usize) -> Result<ValidRoster, Refusal>
    ensures answer { answer_of result ≡ lowest (answers.size_rows r slots length) }
    ensures same { IfOk result (λ v. v.roster ≡ r) }
{
    if !base::slots_fit(slots) || length != slots as usize {
        return Err(Refusal::SlotCount);
    }
    ValidRoster::try_from(r)
}

// How many slots each owner has a right to, with zeros behind them.
fn share_list(v: &ValidRoster, slots: u32) -> [u32; 256]
    requires { slots_fit slots ≡ true }
    ensures { result ≡ padded 256 (shares v.now.roster slots) }
{
    if v.roster.count == 0 {
        let mut all = base::filled(0);
        all[0] = slots;
        return all;
    }
    quota::quotas(v.rates(), slots)
}

// Gives every slot to nobody.
pub fn clear(table: &mut [u16])
    ensures { table.new ≡ replicate (length table.old) 0 }
{
    table.fill(0);
}

// Does a table belong to a roster? A wrong table is told with its slot, so that one reply alone meets this.
pub fn check(r: Roster, slots: u32, table: &[u16]) -> Result<(), Misfit>
    ensures reply { told_check result ≡ answers.checked r slots table.now }
    ensures with_slot { WithSlot result }
{
    let v = sized(r, slots, table.len())?;
    let owners = Owners::of(&v);
    if let Some(slot) = owners.first_stranger(table) {
        return Err(Misfit::WrongTable { slot });
    }
    let mut room = share_list(&v, slots);
    if owners.tally(&mut room[..owners.count()], table) != 0 {
        return Err(Misfit::WrongTable { slot: table.len() });
    }
    Ok(())
}

// Moves a table to a valid roster's shares, in place, with as few changes as can be; how many slots changed owner.
fn settle(v: &ValidRoster, slots: u32, table: &mut [u16]) -> u32
    requires { Sized v.now.roster slots table.old }
    ensures count { result ≡ freed_slots v.now.roster slots table.old }
    ensures owners { table.new ≡ rearranged v.now.roster slots table.old }
{
    let owners = Owners::of(v);
    let n = owners.count();
    let mut room = share_list(v, slots);
    let mut short = room;
    owners.move_slots(&mut room[..n], &mut short[..n], table)
}

// Moves a table to a roster's shares, in place, with as few changes as can be: how many slots changed owner.
pub fn rearrange(r: Roster, slots: u32, table: &mut [u16]) -> Result<u32, Refusal>
    ensures reply { told_move result ≡ answers.move_reply r slots table.old }
    ensures owners { table.new ≡ answers.moved_to r slots table.old }
{
    let v = sized(r, slots, table.len())?;
    Ok(settle(&v, slots, table))
}

// Lays a table out afresh: each host its quota of consecutive slots, in rising host number.
pub fn layout(r: Roster, slots: u32, table: &mut [u16]) -> Result<(), Refusal>
    ensures answer { answer_of result ≡ answers.layout_answer r slots table.old }
    ensures owners { table.new ≡ answers.laid_out r slots table.old }
{
    let v = sized(r, slots, table.len())?;
    clear(table);
    settle(&v, slots, table);
    Ok(())
}

// The laws of tables: without their proofs this function is not proved.
pub fn promises()
    ensures belong { FreshBelongs × RearrangedBelongs × NoHostsZero × BelongingStays }
    ensures fewest { FewestMoves × FreedIsLacked × RowsRise }
    ensures fixed { CheckFixed × LayoutFixed × MoveFixed }
    ensures told { CheckTold × LayoutTold × MoveTold }
{}

// How slots move, as mathematics on lists. The functions that do it stand in `table`.
#![tactic(auto)]

ghost use Rattle.mover.specs.Laws.{FreedIsLacking, MovedIsExact, ChangedIsFreed, FewestChanges, OthersStay, FromAboveToBelow};

// The laws of a move: without their proofs this function is not proved.
pub fn promises()
    ensures { FreedIsLacking × MovedIsExact × ChangedIsFreed × FewestChanges × OthersStay × FromAboveToBelow }
{}

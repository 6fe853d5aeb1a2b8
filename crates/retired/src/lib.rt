// Every call together: number 14 is not used again.
#![tactic(auto)]

ghost use Rattle.retired.specs.Retired.{NotUsedAgain};

// The law: without its proof this function is not proved.
pub fn promises()
    ensures { NotUsedAgain }
{}

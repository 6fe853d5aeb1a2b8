// The proved set of document 01, Farms to try: every case marked P, as one list with one proof over it.
#![tactic(auto)]

ghost use Rattle.cases.specs.Cases.{AllHold};

// The proved set: without its proof this function is not proved.
pub fn promises()
    ensures { AllHold }
{}

// Events and finds together: after any history with a host present, every key is served by a host on the roster.
#![tactic(auto)]

ghost use Rattle.every_key.specs.EveryKey.{EveryKeyServed};

// The law: without its proof this function is not proved.
pub fn promises()
    ensures { EveryKeyServed }
{}

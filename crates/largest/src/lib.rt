// The largest farm: a vector of 256 quotas of 16,384 slots, by the certificate of `quota`. It costs seconds, so it stands apart.
#![tactic(auto)]

ghost use Rattle.largest.specs.Largest.{LargestFarm};

// The vector is the quotas: without the proof this function is not proved.
pub fn promises()
    ensures { LargestFarm }
{}

// A farm of any size, the same at every run.

use roster::Roster;

// The next number of a fixed run of numbers.
fn next_seed(seed: u32) -> u32 {
    (u64::from(seed) * 48_271 % 2_147_483_647) as u32
}

// A rate in its range.
fn rate_from(seed: u32) -> u32 {
    seed % 1_000_000 + 1
}

// The number of the host at a place.
pub(crate) fn host_at(place: u32) -> u16 {
    ((u64::from(place) * 200 + 7) % 65_536) as u16
}

// A roster of so many hosts.
pub(crate) fn farm(hosts: u32) -> Roster {
    let mut farm = roster::empty();
    let mut seed = 1;
    for place in 0..hosts {
        seed = next_seed(seed);
        farm = roster::added(farm, host_at(place), rate_from(seed));
    }
    farm
}

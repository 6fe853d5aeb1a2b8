// The roster of hosts, by value: up to 256 host numbers, their rates, and a count.
#![tactic(auto)]

ghost use Rattle.std.specs.Prelude.{◌≡◌, true, [], ◌∷◌, ◌++◌, ℕ, suc, ◌<◌, ◌≤◌, length, take, drop};
ghost use Rattle.base.specs.Tables.{all, at};
ghost use Rattle.roster.specs.Roster.{is_on, Rises};
ghost use Rattle.roster.specs.Roster as roster;
ghost use Rattle.roster.specs.Changes as changes;
ghost use Rattle.roster.specs.Laws.{NoneValid, AddedValid, DroppedValid, ReratedValid, AddedOnly, DroppedOnly, ReratedOnly, SameRate};
ghost use Rattle.roster.specs.Laws.{NoSecondAdd, NoAbsentDrop, NoAbsentRate};
ghost use Rattle.roster.specs.Places.{Places, place_right, right_at};

mod valid_roster;

pub use valid_roster::ValidRoster;

// Two arrays and a count, by value: the form that document 01 names, Which shape goes where.
// Host numbers have the width of a table's owners, with which they are compared; rates go to a million.
#[derive(Clone, Copy, Debug, PartialEq, Eq)]
pub struct Roster {
    pub hosts: [u16; 256],
    pub rates: [u32; 256],
    pub count: usize,
}

// No hosts.
pub fn empty() -> Roster
    ensures { result ≡ changes.none }
{
    Roster {
        hosts: [0; 256],
        rates: [0; 256],
        count: 0,
    }
}

// Whether one place is right: a used one stands above the last and has a rate in range, any other is zero.
fn place_right(used: bool, last: u16, host: u16, rate: u32) -> bool
    ensures { result ≡ place_right used last host rate }
{
    if used {
        return last < host && base::rate_fits(rate);
    }
    host == 0 && rate == 0
}

// Whether every place is right, with the number before each one carried along.
fn places_right(hosts: &[u16; 256], rates: &[u32; 256], count: usize) -> bool
    ensures answer { result ≡ all 256 (right_at hosts.now rates.now count) }
    ensures narrow { (i : ℕ) → at hosts.now i ≤ 65535 }
{
    let mut last = 0;
    for i in 0..256 {
        let host = hosts[i];
        if !place_right(i < count, last, host, rates[i]) {
            return false;
        }
        last = host;
    }
    true
}

// Whether a roster breaks no rule.
pub fn valid(r: Roster) -> bool
    ensures { result ≡ roster.valid r }
{
    r.count <= 256 && places_right(&r.hosts, &r.rates, r.count)
}

// The place of a number among rising ones, by halves.
pub fn place(hosts: &[u16], host: u16) -> usize
    ensures within { result ≤ length hosts.now }
    ensures sorted { Rises hosts.now → result ≡ roster.place hosts.now host }
{
    hosts.partition_point(|&other| other < host)
}

// Whether a number is among rising ones.
pub fn is_on(hosts: &[u16], host: u16) -> bool
    ensures { Rises hosts.now → result ≡ is_on hosts.now host }
{
    hosts.binary_search(&host).is_ok()
}

// Where a host may be added, if it may.
fn place_to_add(r: Roster, host: u16, rate: u32) -> Option<usize>
    ensures { Places (changes.may_add r host rate) (changes.place_in r host) result }
{
    let Ok(v) = ValidRoster::try_from(r) else {
        return None;
    };
    if host == 0 || !base::rate_fits(rate) || r.count == 256 {
        return None;
    }
    v.hosts().binary_search(&host).err()
}

// Where the host stands that may be dropped, if it may: if it is on the roster.
fn place_to_drop(r: Roster, host: u16) -> Option<usize>
    ensures { Places (changes.may_drop r host) (changes.place_in r host) result }
{
    let Ok(v) = ValidRoster::try_from(r) else {
        return None;
    };
    v.hosts().binary_search(&host).ok()
}

// Where the host stands that may be given a new rate, if it may.
fn place_to_rerate(r: Roster, host: u16, rate: u32) -> Option<usize>
    ensures { Places (changes.may_rerate r host rate) (changes.place_in r host) result }
{
    if !base::rate_fits(rate) {
        return None;
    }
    place_to_drop(r, host)
}

// Whether a host may be dropped: whether it is on the roster.
pub fn may_drop(r: Roster, host: u16) -> bool
    ensures { result ≡ changes.may_drop r host }
{
    place_to_drop(r, host).is_some()
}

// Puts a value in at place p of a list: what stood there and behind it moves up by one, and the last entry falls out.
fn put_in<T: Copy>(list: &mut [T], p: usize, value: T)
    requires { p < length list.old }
    ensures { list.new ≡ take (length list.old) (take p list.old ++ value ∷ drop p list.old) }
{
    let last = list.len() - 1;
    list.copy_within(p..last, p + 1);
    list[p] = value;
}

// Takes place p out of a list: what stood behind it moves down by one, and a blank follows.
fn take_out<T: Copy>(list: &mut [T], p: usize, blank: T)
    requires { p < length list.old }
    ensures { list.new ≡ (take p list.old ++ drop (suc p) list.old) ++ blank ∷ [] }
{
    let last = list.len() - 1;
    list.copy_within(p + 1.., p);
    list[last] = blank;
}

// The roster with a host added at its place, or as it was where the host may not be added.
pub fn added(r: Roster, host: u16, rate: u32) -> Roster
    ensures { result ≡ changes.added r host rate }
{
    let Some(p) = place_to_add(r, host, rate) else {
        return r;
    };
    let mut after = r;
    put_in(&mut after.hosts, p, host);
    put_in(&mut after.rates, p, rate);
    after.count += 1;
    after
}

// The roster without a host, or as it was where the host may not be dropped.
pub fn dropped(r: Roster, host: u16) -> Roster
    ensures { result ≡ changes.dropped r host }
{
    let Some(p) = place_to_drop(r, host) else {
        return r;
    };
    let mut after = r;
    take_out(&mut after.hosts, p, 0);
    take_out(&mut after.rates, p, 0);
    after.count -= 1;
    after
}

// The roster with a host's new rate, or as it was where the host may not have it.
pub fn rerated(r: Roster, host: u16, rate: u32) -> Roster
    ensures { result ≡ changes.rerated r host rate }
{
    let Some(p) = place_to_rerate(r, host, rate) else {
        return r;
    };
    let mut after = r;
    after.rates[p] = rate;
    after
}

// The laws of a roster's changes: without their proofs this function is not proved.
pub fn promises()
    ensures sound { NoneValid × AddedValid × DroppedValid × ReratedValid }
    ensures exact { AddedOnly × DroppedOnly × ReratedOnly × SameRate }
    ensures refused { NoSecondAdd × NoAbsentDrop × NoAbsentRate }
{}

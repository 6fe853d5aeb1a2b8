// Events: a host is added, dropped or given a new rate; the roster and the lent table follow. And the forecast of one host's share.
#![tactic(auto)]

ghost use Rattle.std.specs.Prelude.{◌≡◌, true, ◌≤◌, pos, ◌-ℤ◌, IfOk};
ghost use Rattle.base.specs.Refusals.{answer_of};
ghost use Rattle.base.specs.Rows.{lowest};
ghost use Rattle.base.specs.Sizes.{host_fits, slots_fit};
ghost use Rattle.roster.specs.Roster as rosters;
ghost use Rattle.events.specs.Events as events;
ghost use Rattle.events.specs.Forecasts as forecasts;
ghost use Rattle.events.specs.Demand3.{StaysRight, SlotsSum, NoSmallerRatio, WithinBound, OnlyTheNamed, CountIsTrue, NoFewer, RefusedKeeps};
ghost use Rattle.events.specs.Demand3.{SameRateStays, ForecastIsTrue, RowsRise, ReplyFixed, ForecastFixed};
ghost use Rattle.events.specs.Laws.{ChecksSuffice, NeverFourteen};
ghost use Rattle.events.specs.Told.{told, foretold};

use base::Refusal;
use roster::{Roster, ValidRoster};

// A change of the roster, with the host it names. Numbers are wide enough to be out of range.
#[derive(Clone, Copy, Debug, PartialEq, Eq)]
pub enum Event {
    Add { host: u32, rate: u32 },
    Drop { host: u32 },
    Rate { host: u32, rate: u32 },
}

// What an accepted event gives: the roster after it, and how many slots changed owner.
#[derive(Clone, Copy, Debug, PartialEq, Eq)]
pub struct Change {
    pub roster: Roster,
    pub moved: u32,
}

// The roster that was handed in, and why the event is refused. The roster comes first, as in `Change`, so that handing it on is one copy.
#[derive(Clone, Copy, Debug, PartialEq, Eq)]
pub struct Refused {
    pub roster: Roster,
    pub reason: Refusal,
}

impl Event {
    // The host that an event names.
    fn named(self) -> u32
        ensures { result ≡ events.named self }
    {
        match self {
            Event::Add { host, .. } => host,
            Event::Drop { host } => host,
            Event::Rate { host, .. } => host,
        }
    }
}

// Rows 5, 7 and 8 of an add.
#[tactic(auto, unfolding(base::specs::Rows::lowest))]
fn check_add(v: &ValidRoster, host: u16, rate: u32) -> Result<(), Refusal>
    ensures { answer_of result ≡ lowest (events.change_rows v.now.roster (Event.Add host rate)) }
{
    if !base::rate_fits(rate) {
        return Err(Refusal::Rate);
    }
    if v.lists(host) {
        return Err(Refusal::HostPresent);
    }
    if v.roster.count == 256 {
        return Err(Refusal::RosterFull);
    }
    Ok(())
}

// Row 6 of a drop.
#[tactic(auto, unfolding(base::specs::Rows::lowest))]
fn check_drop(v: &ValidRoster, host: u16) -> Result<(), Refusal>
    ensures { answer_of result ≡ lowest (events.change_rows v.now.roster (Event.Drop host)) }
{
    if !v.lists(host) {
        return Err(Refusal::HostAbsent);
    }
    Ok(())
}

// Rows 5 and 6 of a new rate.
#[tactic(auto, unfolding(base::specs::Rows::lowest))]
fn check_rate(v: &ValidRoster, host: u16, rate: u32) -> Result<(), Refusal>
    ensures { answer_of result ≡ lowest (events.change_rows v.now.roster (Event.Rate host rate)) }
{
    if !base::rate_fits(rate) {
        return Err(Refusal::Rate);
    }
    check_drop(v, host)
}

// Rows 5 to 8 of an event whose host number is in range, so that sixteen bits hold it.
#[tactic(auto, using(crate::proofs::Checks::host_narrow), unfolding(base::specs::Rows::lowest))]
fn check_change(v: &ValidRoster, event: Event) -> Result<(), Refusal>
    requires { host_fits (events.named event) ≡ true }
    ensures { answer_of result ≡ lowest (events.change_rows v.now.roster event) }
{
    match event {
        Event::Add { host, rate } => check_add(v, host as u16, rate),
        Event::Drop { host } => check_drop(v, host as u16),
        Event::Rate { host, rate } => check_rate(v, host as u16, rate),
    }
}

// Rows 4 to 8 of an event.
#[tactic(auto, unfolding(base::specs::Rows::lowest))]
fn check_event(v: &ValidRoster, event: Event) -> Result<(), Refusal>
    ensures { answer_of result ≡ lowest (events.event_rows v.now.roster event) }
{
    if !base::host_fits(event.named()) {
        return Err(Refusal::HostNumber);
    }
    check_change(v, event)
}

// The roster with an event's change.
fn changed(v: &ValidRoster, event: Event) -> ValidRoster
    requires { host_fits (events.named event) ≡ true }
    ensures { result.roster ≡ events.changed v.now.roster event }
{
    let r = v.roster;
    let roster = match event {
        Event::Add { host, rate } => roster::added(r, host as u16, rate),
        Event::Drop { host } => roster::dropped(r, host as u16),
        Event::Rate { host, rate } => roster::rerated(r, host as u16, rate),
    };
    ValidRoster { roster }
}

// The roster with an event's change, where none of the event's rows holds.
fn next_roster(r: Roster, slots: u32, event: Event, table: &[u16]) -> Result<ValidRoster, Refusal>
    ensures answer { answer_of result ≡ events.answer_of r slots event table.now }
    ensures next { IfOk result (λ v. v.roster ≡ events.changed r event) }
{
    table::check(r, slots, table)?;
    // a table that belongs tells that its roster breaks no rule
    let v = ValidRoster { roster: r };
    check_event(&v, event)?;
    Ok(changed(&v, event))
}

// Applies an event to a roster and its table. A refusal hands the roster back as it came and leaves the table.
pub fn apply(r: Roster, slots: u32, event: Event, table: &mut [u16]) -> Result<Change, Refused>
    ensures reply { told result ≡ events.reply_of r slots event table.old }
    ensures owners { table.new ≡ events.table_after r slots event table.old }
{
    match next_roster(r, slots, event, table) {
        Err(reason) => Err(Refused { reason, roster: r }),
        Ok(next) => {
            let roster = next.roster;
            // the checks suffice for the move, so it is not refused
            let moved = table::rearrange(roster, slots, table).unwrap();
            Ok(Change { roster, moved })
        }
    }
}

// A host's quota, 0 where it is not on the roster.
fn quota_of(v: &ValidRoster, slots: u32, host: u16) -> u32
    requires { slots_fit slots ≡ true }
    ensures quota { result ≡ forecasts.host_quota v.now.roster slots host }
    ensures small { result ≤ 16384 }
{
    if !v.lists(host) {
        return 0;
    }
    quota::quotas(v.rates(), slots)[v.place(host)]
}

// One quota less another, as a signed number.
fn less(after: u32, before: u32) -> i32
    requires { (after ≤ 16384) × (before ≤ 16384) }
    ensures { result ≡ pos after -ℤ pos before }
{
    after as i32 - before as i32
}

// The roster of a forecast, where none of the forecast's rows holds.
#[tactic(auto, unfolding(crate::specs::Forecasts::forecast_answer, base::specs::Rows::lowest))]
fn foreseeing(r: Roster, slots: u32, event: Event, asked: u32) -> Result<ValidRoster, Refusal>
    ensures answer { answer_of result ≡ forecasts.forecast_answer r slots event asked }
    ensures same { IfOk result (λ v. v.roster ≡ r) }
{
    if !base::slots_fit(slots) {
        return Err(Refusal::SlotCount);
    }
    let v = ValidRoster::try_from(r)?;
    if !base::host_fits(event.named()) || !base::host_fits(asked) {
        return Err(Refusal::HostNumber);
    }
    check_change(&v, event)?;
    Ok(v)
}

// How a host's quota would change with an event: the event's checks but for the table, and no table at all.
pub fn forecast(r: Roster, slots: u32, event: Event, asked: u32) -> Result<i32, Refusal>
    ensures { foretold result ≡ forecasts.forecast_of r slots event asked }
{
    let v = foreseeing(r, slots, event, asked)?;
    let before = quota_of(&v, slots, asked as u16);
    let after = quota_of(&changed(&v, event), slots, asked as u16);
    Ok(less(after, before))
}

// Demand 3 over every history, and that replies are fixed: without their proofs this function is not proved.
pub fn promises()
    ensures states { StaysRight × SlotsSum × NoSmallerRatio × WithinBound }
    ensures moves { OnlyTheNamed × CountIsTrue × NoFewer × RefusedKeeps × SameRateStays }
    ensures forecasts { ForecastIsTrue × RowsRise }
    ensures fixed { ReplyFixed × ForecastFixed }
    ensures checks { ChecksSuffice × NeverFourteen }
{}

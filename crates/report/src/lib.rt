// The report: a lent list filled with one record for each host of a roster, in its order.
#![tactic(auto)]

ghost use Rattle.std.specs.Prelude.{◌≡◌, length, IfOk};
ghost use Rattle.base.specs.Refusals.{answer_of as told};
ghost use Rattle.report.specs.Report.{answer_of, reported};
ghost use Rattle.report.specs.Laws.{RowsRise, OneRecordAHost, RefusedUnwritten, ReportFixed};

use base::Refusal;
use roster::{Roster, ValidRoster};

// A host as the report tells it.
#[derive(Clone, Copy, Debug, PartialEq, Eq)]
pub struct HostRecord {
    pub number: u16,
    pub rate: u32,
    pub quota: u32,
}

// The roster of a report of so many records, or the lowest reason to refuse it.
#[tactic(auto, using(crate::proofs::Replies::answer_rows))]
fn checked(r: Roster, slots: u32, records: usize) -> Result<ValidRoster, Refusal>
    ensures answer { told result ≡ answer_of r slots records }
    ensures roster { IfOk result (λ v. v.roster ≡ r) }
{
    if !base::slots_fit(slots) {
        return Err(Refusal::SlotCount);
    }
    let roster = ValidRoster::try_from(r)?;
    if r.count != records {
        return Err(Refusal::ListLength);
    }
    Ok(roster)
}

// Fills the list with one record for each host, in roster order; a refusal writes nothing.
pub fn report(r: Roster, slots: u32, out: &mut [HostRecord]) -> Result<(), Refusal>
    ensures answer { told result ≡ answer_of r slots (length out.old) }
    ensures list { out.new ≡ reported r slots out.old }
{
    let roster = checked(r, slots, out.len())?;
    let hosts = roster.hosts();
    let rates = roster.rates();
    let quotas = quota::quotas(rates, slots);
    for (i, record) in out.iter_mut().enumerate() {
        *record = HostRecord {
            number: hosts[i],
            rate: rates[i],
            quota: quotas[i],
        };
    }
    Ok(())
}

// The laws of a report: without their proofs this function is not proved.
pub fn promises()
    ensures filled { RowsRise × OneRecordAHost × RefusedUnwritten }
    ensures fixed { ReportFixed }
{}

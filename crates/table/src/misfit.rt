// Why a table does not belong to a roster.
use base::Refusal;

// The check stops at the sizes or at the roster; or the table is wrong, from the first stranger's slot on, or from the slot count where only a count is wrong.
#[derive(Clone, Copy, Debug, PartialEq, Eq)]
pub enum Misfit {
    Refused(Refusal),
    WrongTable { slot: usize },
}

impl From<Refusal> for Misfit {
    ghost use Rattle.table.specs.declared.misfit.Misfit.TheVariants.{Refused};
    ghost use Rattle.std.specs.Prelude.{◌≡◌};

    ghost from_gives = { λ reason misfit. misfit ≡ Refused reason };

    fn from(reason: Refusal) -> Misfit {
        Misfit::Refused(reason)
    }
}

// The reason alone.
impl From<Misfit> for Refusal {
    ghost use Rattle.table.specs.Told.{reason_of};
    ghost use Rattle.std.specs.Prelude.{◌≡◌};

    ghost from_gives = { λ misfit reason. reason ≡ reason_of misfit };

    fn from(misfit: Misfit) -> Refusal {
        match misfit {
            Misfit::Refused(reason) => reason,
            Misfit::WrongTable { slot: _ } => Refusal::WrongTable,
        }
    }
}

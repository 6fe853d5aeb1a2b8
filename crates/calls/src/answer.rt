// The number that a call answers.

use base::Refusal;

// 0, or that of the reason for which the call is refused.
pub(crate) fn number<T: Drop, E: Into<Refusal>>(reply: Result<T, E>) -> u32 {
    match reply {
        Ok(_) => 0,
        Err(reason) => u32::from(reason.into()),
    }
}

// The states of both ends by the numbers that a host keeps.
ghost use Rattle.std.specs.Prelude.{◌≡◌, ◌<◌, MatchResult};
ghost use Rattle.watch.specs.Numbers.{originating_number, terminating_number};

use crate::{Originating, Terminating};

// A number that no state has.
#[derive(Clone, Copy, Debug, PartialEq, Eq)]
pub struct UnknownState(pub u64);

impl TryFrom<u64> for Originating {
    type Error = UnknownState;

    ghost try_from_gives = { λ n r. MatchResult r (λ o. originating_number o ≡ n) (λ e. (e.0 ≡ n) × (1 < n)) };

    fn try_from(n: u64) -> Result<Self, UnknownState> {
        match n {
            0 => Ok(Originating::Norm),
            1 => Ok(Originating::Alarm),
            _ => Err(UnknownState(n)),
        }
    }
}

impl TryFrom<u64> for Terminating {
    type Error = UnknownState;

    ghost try_from_gives = { λ n r. MatchResult r (λ t. terminating_number t ≡ n) (λ e. (e.0 ≡ n) × (2 < n)) };

    fn try_from(n: u64) -> Result<Self, UnknownState> {
        match n {
            0 => Ok(Terminating::Norm),
            1 => Ok(Terminating::LAlarm),
            2 => Ok(Terminating::RAlarm),
            _ => Err(UnknownState(n)),
        }
    }
}

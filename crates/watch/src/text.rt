// How the states of both ends, what is sent and what becomes of conditioning are printed.
ghost use Rattle.std.specs.Prelude.{Some};
ghost use Rattle.watch.specs.Texts.{originating_text, terminating_text, sends_text, conditioning_text};

use crate::{Conditioning, Originating, Sends, Terminating};
use std::fmt;

impl fmt::Display for Originating {
    ghost output = { λ o. Some (originating_text o) };

    fn fmt<W: fmt::Write>(&self, f: &mut fmt::Formatter<W>) -> fmt::Result {
        f.write_str(match self {
            Originating::Norm => "NORM",
            Originating::Alarm => "ALARM",
        })
    }
}

impl fmt::Display for Terminating {
    ghost output = { λ t. Some (terminating_text t) };

    fn fmt<W: fmt::Write>(&self, f: &mut fmt::Formatter<W>) -> fmt::Result {
        f.write_str(match self {
            Terminating::Norm => "NORM",
            Terminating::LAlarm => "L_ALARM",
            Terminating::RAlarm => "R_ALARM",
        })
    }
}

impl fmt::Display for Sends {
    ghost output = { λ sends. Some (sends_text sends) };

    fn fmt<W: fmt::Write>(&self, f: &mut fmt::Formatter<W>) -> fmt::Result {
        f.write_str(match self {
            Sends::Nothing => "nothing",
            Sends::Transition => "transition",
            Sends::Refresh => "refresh",
        })
    }
}

impl fmt::Display for Conditioning {
    ghost output = { λ conditioning. Some (conditioning_text conditioning) };

    fn fmt<W: fmt::Write>(&self, f: &mut fmt::Formatter<W>) -> fmt::Result {
        f.write_str(match self {
            Conditioning::Unchanged => "unchanged",
            Conditioning::Begins => "begins",
            Conditioning::Ends => "ends",
        })
    }
}

// The watch joined to the frames: what a signalling frame that is heard tells the watch.
#![tactic(auto)]

ghost use Rattle.std.specs.Prelude.{◌≡◌};
ghost use Rattle.trunk.specs.Trunk.{event_of, heard_as};

use endpoint::SignalFacts;
use watch::Event;

// A frame that the signalling reader refuses is not taken: only time has passed. What refuses it may be a `Refusal`, a number or anything else.
pub fn event_of<E: Drop>(heard: Result<SignalFacts, E>) -> Event
    ensures { result ≡ event_of (heard_as heard) }
{
    match heard {
        Ok(signal) => Event::Frame { na: signal.na },
        Err(_) => Event::Passing,
    }
}

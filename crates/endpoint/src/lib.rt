// All that hears a frame: the reader, the arrival, signalling, and fill.
#![tactic(auto)]

ghost use Rattle.std.specs.Prelude.{◌≡◌, ◌++◌, ◌≤◌, IsOk, length, drop, replicate};
ghost use Rattle.refusals.specs.Refusals.{◌or_else◌, refusal_of};
ghost use Rattle.frame.specs.Orders.{voice_refusal};
ghost use Rattle.playout.specs.Play.{fresh_record, refusal14, refusal18, decision_paper};
ghost use Rattle.endpoint.specs.Arrival.{frame_decision, reset_of, arrival_of, arrival_paper, arrived_paper};
ghost use Rattle.endpoint.specs.Outcome.{told_of, told_or, samples_or, outcome_of, outcome_paper};
ghost use Rattle.endpoint.specs.Fill.{fill_of};
ghost use Rattle.endpoint.specs.Read.{samples_of, heard_of, heard_paper, read_answer};
ghost use Rattle.endpoint.specs.Signal.{signal_order, signal_answer, signal_paper};

use blocks::read_blocks;
use frame::{
    coding_of, field_c, field_m, more_bit, na_of, noise_of, sequence_of, signal_bits,
    signal_refusal, stamp_of, voice_refusal,
};
use playout::{Decision, Endpoint, buildout_bad, decide, hold, refusal_14, refusal_18, stamp_late};
use refusals::{Refusal, refuse};

pub fn fresh(buildout: u8) -> Endpoint
    ensures { result ≡ fresh_record buildout }
{
    Endpoint {
        buildout, // as it is given: what uses it judges it
        rseq: 0,
        lastclock: 0,
        end: 0,
        mlast: 0,
        lastnoise: 0,
        scheduled: 0,
        late: 0,
        missing: 0,
    }
}

// What is told of a frame beside its samples.
#[derive(Clone, Copy, Debug, PartialEq, Eq)]
pub struct Told {
    pub s: u8,
    pub dropped: u8,
    pub width: u8,
}

// Of a frame that no number refuses.
#[tactic(auto, unfolding(crate::specs::Read::heard_of))]
fn tell_taken(frame: &[u8]) -> Told
    ensures { result ≡ told_of (heard_of 0 frame.now) }
{
    let s = coding_of(frame).sample_bits();
    let c = field_c(frame);
    let dropped = field_m(frame).saturating_sub(c);
    let width = usize::from(s).saturating_sub(dropped);
    Told {
        s,
        dropped: dropped as u8,
        width: width as u8,
    }
}

// Of a frame that is refused as given, or is not. What it is refused by is handed on, a `Refusal` or any other value.
pub fn tell<E>(given: Result<(), E>, frame: &[u8]) -> Result<Told, E>
    ensures { result ≡ told_or given frame.now }
{
    match given {
        Ok(()) => Ok(tell_taken(frame)),
        Err(refusal) => Err(refusal),
    }
}

// 128 zeros. `hear_into` has the room.
fn quiet(samples: &mut [u8])
    requires { 128 ≤ length samples.old }
    ensures { samples.new ≡ replicate 128 0 ++ drop 128 samples.old }
{
    samples[..128].fill(0);
}

// The words of a frame that no number refuses: its blocks, read at as many bits as there are blocks.
#[tactic(auto, using(crate::proofs::ReadLaws::blocks_there), unfolding(crate::specs::Read::heard_of, crate::specs::Read::samples_of))]
fn read_words(frame: &[u8]) -> [u8; 128]
    requires { voice_refusal frame.now ≡ 0 }
    ensures { result ≡ samples_of frame.now }
{
    let t = tell_taken(frame);
    read_blocks(frame, usize::from(t.width), usize::from(t.width))
}

// What is heard of a frame, into a slice of 128 or more: zeros where it is refused, by a `Refusal` or any other value, written once.
// The callers' proofs show the room, and that no number of the voice reader's order applies where none is given.
#[tactic(auto, unfolding(crate::specs::Read::heard_of))]
pub fn hear_into<T, E>(given: &Result<T, E>, frame: &[u8], samples: &mut [u8])
    requires { (IsOk given.now → voice_refusal frame.now ≡ 0) × (128 ≤ length samples.old) }
    ensures { samples.new ≡ samples_or given.now frame.now ++ drop 128 samples.old }
{
    match given {
        Ok(_) => samples[..128].copy_from_slice(&read_words(frame)),
        Err(_) => quiet(samples),
    }
}

// What the voice reader hears.
#[derive(Clone, Copy, Debug, PartialEq, Eq)]
pub struct Words {
    pub s: u8,
    pub dropped: u8,
    pub width: u8,
    pub samples: [u8; 128],
}

// The voice reader alone, with no record and no clock.
#[tactic(auto, using(refusals::proofs::RefusalLaws::judged), unfolding(crate::specs::Read::read_answer, crate::specs::Read::heard_of, crate::specs::Read::heard_paper, crate::specs::Outcome::told_paper))]
pub fn read(frame: &[u8]) -> Result<Words, Refusal>
    ensures { heard_paper result ≡ read_answer frame.now }
{
    voice_refusal(frame)?;
    let t = tell_taken(frame);
    Ok(Words {
        s: t.s,
        dropped: t.dropped,
        width: t.width,
        samples: read_words(frame),
    })
}

// What an arrival answers of a frame that is scheduled.
#[derive(Clone, Copy, Debug, PartialEq, Eq)]
pub struct Arrival {
    pub due: u64,
    pub reset: u8,
    pub s: u8,
    pub dropped: u8,
    pub width: u8,
    pub samples: [u8; 128],
}

// The answer, and the record after it, which a refused frame may change too.
#[derive(Clone, Copy, Debug, PartialEq, Eq)]
pub struct Arrived {
    pub answer: Result<Arrival, Refusal>,
    pub after: Endpoint,
}

#[tactic(auto, unfolding(crate::specs::Arrival::reset_of))]
fn reset_of(frame: &[u8]) -> u8
    ensures { result ≡ reset_of 0 frame.now }
{
    if sequence_of(frame) == 0 {
        coding_of(frame).reset()
    } else {
        0
    }
}

#[tactic(auto, using(refusals::proofs::RefusalLaws::judged))]
fn early(e: Endpoint, clock: u64) -> Result<(), Refusal>
    ensures { refusal_of result ≡ refusal14 e or_else refusal18 e clock }
{
    refusal_14(e)?;
    refusal_18(e, clock)
}

// The record and the clock are judged before the frame is looked at. `decide` judges both again, for its promise is of any
// caller; the compiler finds that it need not.
#[tactic(auto, using(refusals::proofs::RefusalLaws::judged), unfolding(crate::specs::Arrival::frame_decision))]
fn decide_frame(e: Endpoint, frame: &[u8], clock: u64) -> Decision
    ensures { decision_paper result ≡ frame_decision e frame.now clock }
{
    if let Err(first) = early(e, clock) {
        return Decision {
            due: Err(first),
            after: e,
        };
    }
    let given = voice_refusal(frame);
    decide(
        e,
        clock,
        given,
        stamp_of(frame),
        sequence_of(frame),
        more_bit(frame),
        noise_of(frame),
    )
}

// What an arrival answers beside its samples.
#[derive(Clone, Copy, Debug, PartialEq, Eq)]
pub struct Scheduled {
    pub due: u64,
    pub reset: u8,
    pub told: Told,
}

// The same where the frame is scheduled, and the record after it.
#[derive(Clone, Copy, Debug, PartialEq, Eq)]
pub struct Judged {
    pub outcome: Result<Scheduled, Refusal>,
    pub after: Endpoint,
}

#[tactic(auto, using(refusals::proofs::RefusalLaws::judged), unfolding(crate::specs::Arrival::arrival_of, crate::specs::Arrival::arrival_by, crate::specs::Arrival::reset_of, crate::specs::Read::heard_of, crate::specs::Outcome::outcome_paper, playout::specs::Play::decision_paper))]
pub fn judge(e: Endpoint, frame: &[u8], clock: u64) -> Judged
    ensures { outcome_paper result ≡ outcome_of (arrival_of e frame.now clock) }
{
    let d = decide_frame(e, frame, clock);
    let outcome = d.due.map(|due| Scheduled {
        due,
        reset: reset_of(frame),
        told: tell_taken(frame),
    });
    Judged {
        outcome,
        after: d.after,
    }
}

// The arrival on a record by value, which is handed back moved on.
#[tactic(auto, using(refusals::proofs::RefusalLaws::judged, crate::proofs::ArrivalLaws::outcome_readable), unfolding(crate::specs::Arrival::arrival_of, crate::specs::Arrival::arrival_by, crate::specs::Arrival::arrived_paper, crate::specs::Arrival::arrival_paper, crate::specs::Arrival::reset_of, crate::specs::Read::heard_of, crate::specs::Outcome::outcome_paper))]
pub fn arrive_value(e: Endpoint, frame: &[u8], clock: u64) -> Arrived
    ensures { arrived_paper result ≡ arrival_of e frame.now clock }
{
    let j = judge(e, frame, clock);
    // A match: in a closure that `map` calls, `read_words` would not know that no number applies.
    let answer = match j.outcome {
        Ok(a) => Ok(Arrival {
            due: a.due,
            reset: a.reset,
            s: a.told.s,
            dropped: a.told.dropped,
            width: a.told.width,
            samples: read_words(frame),
        }),
        Err(refusal) => Err(refusal),
    };
    Arrived {
        answer,
        after: j.after,
    }
}

// The same arrival on a record that is lent: it is taken apart, decided by value and moved on in place.
#[tactic(auto, unfolding(crate::specs::Arrival::arrived_paper))]
pub fn arrive(e: &mut Endpoint, frame: &[u8], clock: u64) -> Result<Arrival, Refusal>
    ensures { (e.new ≡ (arrival_of e.old frame.now clock).after)
        × (arrival_paper result ≡ (arrival_of e.old frame.now clock).answer) }
{
    let Endpoint {
        buildout,
        rseq,
        lastclock,
        end,
        mlast,
        lastnoise,
        scheduled,
        late,
        missing,
    } = *e;
    let before = Endpoint {
        buildout,
        rseq,
        lastclock,
        end,
        mlast,
        lastnoise,
        scheduled,
        late,
        missing,
    };
    let a = arrive_value(before, frame, clock);
    *e = a.after;
    a.answer
}

// What the signalling reader hears.
#[derive(Clone, Copy, Debug, PartialEq, Eq)]
pub struct SignalFacts {
    pub bits: u8,
    pub na: u8,
    pub hold: u8,
}

// B is judged before the frame is looked at.
#[tactic(auto, using(refusals::proofs::RefusalLaws::judged), unfolding(crate::specs::Signal::signal_order))]
fn signal_order(buildout: u8, frame: &[u8]) -> Result<(), Refusal>
    ensures { refusal_of result ≡ signal_order buildout frame.now }
{
    refuse(buildout_bad(buildout), Refusal::Record)?;
    signal_refusal(frame)?;
    refuse(stamp_late(buildout, stamp_of(frame)), Refusal::Late)
}

// The signalling reader: four bits, N/A, and the hold that the build-out gives.
#[tactic(auto, using(refusals::proofs::RefusalLaws::judged), unfolding(crate::specs::Signal::signal_answer, crate::specs::Signal::signal_paper))]
pub fn signal(buildout: u8, frame: &[u8]) -> Result<SignalFacts, Refusal>
    ensures { signal_paper result ≡ signal_answer buildout frame.now }
{
    signal_order(buildout, frame)?;
    Ok(SignalFacts {
        bits: signal_bits(frame),
        na: na_of(frame),
        hold: hold(buildout, stamp_of(frame)),
    })
}

// The samples to play in the absence of packets.
pub fn fill<'a>(last: &'a [u8], noise: &'a [u8], mlast: u8) -> &'a [u8]
    ensures { result.now ≡ fill_of last.now noise.now mlast }
{
    if last.len() < 128 || noise.len() < 128 {
        &last[..0]
    } else if mlast == 1 {
        &last[..128]
    } else {
        &noise[..128]
    }
}

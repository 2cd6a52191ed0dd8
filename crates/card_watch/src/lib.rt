// The calls of a circuit's watch for a host in C or Rust, on numbers and on slices that are lent.
#![tactic(auto)]

ghost use Rattle.std.specs.Prelude.{◌≡◌, length, MatchOption, MatchResult, [], ◌∷◌};
ghost use Rattle.refusals.specs.Refusals.{◌or_else◌, number};
ghost use Rattle.watch.specs.Watch.{start_answer, watched_paper};
ghost use Rattle.card.specs.Card.{short, written};
ghost use Rattle.card_watch.specs.Watching.{watch_numbers, watch_of, nine_refusal, watch_refusal, event_numbered, event_refusal21, sends_number, conditioning_number, tell_numbers, kept_left, kept_tell};

use card::put;
use refusals::{Refusal, refusal_16};
use watch::{Event, Originating, Terminating, Watch, Watched};

// The nine numbers of a watch. The states of both ends count in the order that they are declared in.
// This and `watch_of` are functions, for a `From` needs a type of this crate.
#[tactic(auto, unfolding(crate::specs::Watching::watch_numbers))]
fn watch_numbers(w: Watch) -> [u64; 9]
    ensures { result ≡ watch_numbers w }
{
    [
        u64::from(w.states),
        u64::from(w.refresh),
        u64::from(w.keepalive),
        w.originating as u64,
        w.terminating as u64,
        u64::from(w.bits),
        w.lastsent,
        w.lasttaken,
        w.lastclock,
    ]
}

// The start of a circuit's watch.
#[tactic(auto, using(refusals::proofs::RefusalLaws::judged), unfolding(card::specs::Card::written, watch::specs::Watch::start_paper))]
#[unsafe(no_mangle)]
pub extern "C" fn pelgrant_watch_start(
    states: u8,
    refresh: u32,
    keepalive: u32,
    clock: u64,
    kept: &mut [u64],
) -> u8
    ensures number { result ≡ nine_refusal (length kept.old) or_else (start_answer states refresh keepalive clock).refusal }
    ensures kept { kept.new ≡ written (nine_refusal (length kept.old) or_else (start_answer states refresh keepalive clock).refusal) (watch_numbers (start_answer states refresh keepalive clock).after) kept.old }
{
    if kept.len() != 9 {
        return Refusal::Record.number();
    }
    match watch::start(states, refresh, keepalive, clock) {
        Ok(started) => {
            put(&watch_numbers(started), kept);
            0
        }
        Err(refusal) => refusal.number(),
    }
}

// The watch of nine numbers, where each fits its field.
#[tactic(auto, unfolding(crate::specs::Watching::watch_refusal, crate::specs::Watching::watch_of))]
fn watch_of(kept: &[u64]) -> Option<Watch>
    ensures { MatchOption result (watch_refusal kept.now ≡ 14) (λ w. (watch_refusal kept.now ≡ 0) × (w ≡ watch_of kept.now)) }
{
    let [
        states,
        refresh,
        keepalive,
        originating,
        terminating,
        bits,
        lastsent,
        lasttaken,
        lastclock,
    ] = *kept
    else {
        return None;
    };
    Some(Watch {
        states: u8::try_from(states).ok()?,
        refresh: u32::try_from(refresh).ok()?,
        keepalive: u32::try_from(keepalive).ok()?,
        originating: Originating::try_from(originating).ok()?,
        terminating: Terminating::try_from(terminating).ok()?,
        bits: u8::try_from(bits).ok()?,
        lastsent,
        lasttaken,
        lastclock,
    })
}

// Any flag but 0 of a reading is a facility alarm; a frame's flag is its N/A as it came. Three numbers and no one value, so no `TryFrom`.
fn event_numbered(event: u8, bits: u8, flag: u8) -> Result<Event, Refusal>
    ensures { MatchResult result (λ e. (event_refusal21 event ≡ 0) × (e ≡ event_numbered event bits flag)) (λ r. event_refusal21 event ≡ number r) }
{
    match event {
        0 => Ok(Event::Passing),
        1 => Ok(Event::Reading {
            bits,
            alarm: flag != 0,
        }),
        2 => Ok(Event::Frame { na: flag }),
        _ => Err(Refusal::NotOffered),
    }
}

// What an event answers, as numbers.
fn tell_numbers(told: Watched) -> [u64; 4]
    ensures { result ≡ sends_number told.sends ∷ told.bits ∷ told.na ∷ conditioning_number told.conditioning ∷ [] }
{
    [
        told.sends as u64,
        u64::from(told.bits),
        u64::from(told.na),
        told.conditioning as u64,
    ]
}

// The event on a watch of nine numbers, by value.
#[tactic(auto, using(refusals::proofs::RefusalLaws::judged), unfolding(crate::specs::Watching::kept_tell, crate::specs::Watching::kept_left, crate::specs::Watching::tell_refusal, watch::specs::Watch::watched_paper))]
fn telling(kept: &[u64], clock: u64, event: u8, bits: u8, flag: u8) -> Result<Watched, Refusal>
    ensures { watched_paper (kept_left kept.now event) result ≡ kept_tell kept.now clock event bits flag }
{
    let event = event_numbered(event, bits, flag)?;
    let w = watch_of(kept).ok_or(Refusal::Record)?;
    watch::tell(w, clock, event)
}

// An event of a circuit's watch, which is moved on in place.
#[tactic(auto, using(refusals::proofs::RefusalLaws::judged, crate::proofs::WatchingLaws::done_nine), unfolding(card::specs::Card::written, watch::specs::Watch::watched_paper))]
#[unsafe(no_mangle)]
pub extern "C" fn pelgrant_watch_tell(
    kept: &mut [u64],
    clock: u64,
    event: u8,
    bits: u8,
    flag: u8,
    answer: &mut [u64],
) -> u8
    ensures number { result ≡ short 4 answer.old or_else (kept_tell kept.old clock event bits flag).refusal }
    ensures answer { answer.new ≡ written (short 4 answer.old) (tell_numbers (kept_tell kept.old clock event bits flag)) answer.old }
    ensures kept { kept.new ≡ written (short 4 answer.old or_else (kept_tell kept.old clock event bits flag).refusal) (watch_numbers (kept_tell kept.old clock event bits flag).after) kept.old }
{
    if let Err(flat) = refusal_16(answer.len(), 4) {
        return flat.number();
    }
    match telling(kept, clock, event, bits, flag) {
        Ok(told) => {
            put(&tell_numbers(told), answer);
            put(&watch_numbers(told.after), kept);
            0
        }
        Err(refusal) => {
            put(&[0; 4], answer);
            refusal.number()
        }
    }
}

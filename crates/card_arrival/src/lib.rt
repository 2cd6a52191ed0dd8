// A voice frame that arrives, for a host in C or Rust: on a record of nine numbers that is moved on, or by value.
#![tactic(auto)]

ghost use Rattle.std.specs.Prelude.{◌≡◌, length};
ghost use Rattle.refusals.specs.Refusals.{◌or_else◌, refusal_of, refusal16};
ghost use Rattle.card.specs.Card.{short, short_two, written};
ghost use Rattle.card_record.specs.Record.{arrival_numbers, record_refusal};
ghost use Rattle.card_arrival.specs.Kept.{kept_arrival, kept_after};

use card::short_two;
use card_record::{arrival, no_record};
use refusals::{Refusal, refusal_16};

// The arrival on a record that is lent and moved on in place.
#[tactic(auto, using(refusals::proofs::RefusalLaws::judged), unfolding(card::specs::Card::written, crate::specs::Kept::kept_arrival, crate::specs::Kept::kept_after))]
#[unsafe(no_mangle)]
pub extern "C" fn pelgrant_arrive(
    kept: &mut [u64],
    frame: &[u8],
    clock: u64,
    answer: &mut [u64],
    samples: &mut [u8],
) -> u8
    ensures number { result ≡ short_two 5 answer.old 128 samples.old or_else (kept_arrival kept.old frame.now clock).refusal }
    ensures answer { answer.new ≡ written (short_two 5 answer.old 128 samples.old) (arrival_numbers (kept_arrival kept.old frame.now clock)) answer.old }
    ensures samples { samples.new ≡ written (short_two 5 answer.old 128 samples.old) (kept_arrival kept.old frame.now clock).samples samples.old }
    ensures kept { kept.new ≡ written (short_two 5 answer.old 128 samples.old or_else record_refusal (length kept.old)) (kept_after kept.old frame.now clock) kept.old }
{
    if let Err(flat) = short_two(answer.len(), 5, samples.len(), 128) {
        return flat.number();
    }
    match <[u64; 9]>::try_from(&*kept) {
        Ok(numbers) => arrival(numbers, frame, clock, kept, answer, samples),
        Err(_) => no_record(frame, answer, samples),
    }
}

// One of the three slices that are written is too short.
#[tactic(auto, using(refusals::proofs::RefusalLaws::judged))]
fn short_three(after: usize, answer: usize, samples: usize) -> Result<(), Refusal>
    ensures { refusal_of result ≡ refusal16 after 9 or_else refusal16 answer 5 or_else refusal16 samples 128 }
{
    refusal_16(after, 9)?;
    short_two(answer, 5, samples, 128)
}

// The arrival on a record that is only read.
#[tactic(auto, using(refusals::proofs::RefusalLaws::judged), unfolding(card::specs::Card::written, crate::specs::Kept::kept_arrival, crate::specs::Kept::kept_after))]
#[unsafe(no_mangle)]
pub extern "C" fn pelgrant_arrive_value(
    kept: &[u64],
    frame: &[u8],
    clock: u64,
    after: &mut [u64],
    answer: &mut [u64],
    samples: &mut [u8],
) -> u8
    ensures number { result ≡ (short 9 after.old or_else short_two 5 answer.old 128 samples.old) or_else (kept_arrival kept.now frame.now clock).refusal }
    ensures answer { answer.new ≡ written (short 9 after.old or_else short_two 5 answer.old 128 samples.old) (arrival_numbers (kept_arrival kept.now frame.now clock)) answer.old }
    ensures samples { samples.new ≡ written (short 9 after.old or_else short_two 5 answer.old 128 samples.old) (kept_arrival kept.now frame.now clock).samples samples.old }
    ensures after { after.new ≡ written ((short 9 after.old or_else short_two 5 answer.old 128 samples.old) or_else record_refusal (length kept.now)) (kept_after kept.now frame.now clock) after.old }
{
    if let Err(flat) = short_three(after.len(), answer.len(), samples.len()) {
        return flat.number();
    }
    match <[u64; 9]>::try_from(kept) {
        Ok(numbers) => arrival(numbers, frame, clock, after, answer, samples),
        Err(_) => no_record(frame, answer, samples),
    }
}

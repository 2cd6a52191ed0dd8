// The calls for a host in C or Rust by which frames enter a waiting room and leave it, on numbers and on slices that are lent.
#![tactic(auto)]

ghost use Rattle.std.specs.Prelude.{◌≡◌, [], ◌∷◌};
ghost use Rattle.refusals.specs.Refusals.{◌or_else◌, if_taken, refusal_of};
ghost use Rattle.onward.specs.Sent.{sent_paper};
ghost use Rattle.card.specs.Card.{short, written};
ghost use Rattle.card_queue.specs.Queues.{queue_numbers};
ghost use Rattle.card_room.specs.Rooms.{kept_enter, kept_store, kept_take, kept_buffer};

use card::put;
use card_queue::{numbers, readings};
use refusals::{Refusal, number_of, refusal_16};

fn enter(store: &mut [u8], kept: &mut [u32], frame: &[u8], clock: u32) -> Result<(), Refusal>
    ensures number { refusal_of result ≡ (kept_enter store.old kept.old frame.now clock).refusal }
    ensures store { store.new ≡ kept_store store.old kept.old frame.now }
    ensures kept { kept.new ≡ written (kept_enter store.old kept.old frame.now clock).refusal (queue_numbers (kept_enter store.old kept.old frame.now clock).after) kept.old }
{
    let spot = numbers(kept)?.enter(store, frame)?;
    let slot = spot.slot as usize;
    kept[2] += 1;
    kept[3 + slot] = frame.len() as u32;
    kept[35 + slot] = clock;
    totals::raise(&mut kept[67..], spot.blocks);
    Ok(())
}

// A frame enters.
#[unsafe(no_mangle)]
pub extern "C" fn pelgrant_queue_enter(
    store: &mut [u8],
    kept: &mut [u32],
    frame: &[u8],
    clock: u32,
) -> u8
    ensures number { result ≡ (kept_enter store.old kept.old frame.now clock).refusal }
    ensures store { store.new ≡ kept_store store.old kept.old frame.now }
    ensures kept { kept.new ≡ written (kept_enter store.old kept.old frame.now clock).refusal (queue_numbers (kept_enter store.old kept.old frame.now clock).after) kept.old }
{
    number_of(&enter(store, kept, frame, clock))
}

fn take(
    store: &[u8],
    kept: &mut [u32],
    to: u32,
    level: u8,
    address: u16,
    out: &mut [u8],
) -> Result<usize, Refusal>
    ensures number { (sent_paper result).refusal ≡ (kept_take store.now kept.old to level address out.old).refusal }
    ensures length { (sent_paper result).length ≡ (kept_take store.now kept.old to level address out.old).length }
    ensures out { out.new ≡ kept_buffer store.now kept.old to level address out.old }
    ensures kept { kept.new ≡ written (kept_take store.now kept.old to level address out.old).refusal (queue_numbers (kept_take store.now kept.old to level address out.old).after) kept.old }
{
    let step = numbers(kept)?.take(readings(kept), store, to, level, address, out)?;
    kept[0] = step.head;
    kept[1] = step.first;
    kept[2] = step.count;
    totals::lower(&mut kept[67..], step.blocks);
    Ok(step.length)
}

// The first frame is to go.
#[tactic(auto, using(refusals::proofs::RefusalLaws::judged), unfolding(card::specs::Card::written, onward::specs::Sent::sent_paper))]
#[unsafe(no_mangle)]
pub extern "C" fn pelgrant_queue_take(
    store: &[u8],
    kept: &mut [u32],
    to: u32,
    level: u8,
    address: u16,
    out: &mut [u8],
    answer: &mut [u64],
) -> u8
    ensures number { result ≡ short 1 answer.old or_else (kept_take store.now kept.old to level address out.old).refusal }
    ensures answer { answer.new ≡ written (short 1 answer.old) ((kept_take store.now kept.old to level address out.old).length ∷ []) answer.old }
    ensures out { out.new ≡ if_taken (short 1 answer.old) (kept_buffer store.now kept.old to level address out.old) out.old }
    ensures kept { kept.new ≡ written (short 1 answer.old or_else (kept_take store.now kept.old to level address out.old).refusal) (queue_numbers (kept_take store.now kept.old to level address out.old).after) kept.old }
{
    if let Err(flat) = refusal_16(answer.len(), 1) {
        return flat.number();
    }
    let taken = take(store, kept, to, level, address, out);
    put(&[taken.unwrap_or(0) as u64], answer);
    number_of(&taken)
}

// The exports of `card_queue`: a library that others stand on is no archive, so what a host links stands here.
#![tactic(auto)]

ghost use Rattle.std.specs.Prelude.{◌≡◌, [], ◌∷◌, length};
ghost use Rattle.refusals.specs.Refusals.{◌or_else◌};
ghost use Rattle.queue.specs.Calls.{fresh_queue};
ghost use Rattle.card.specs.Card.{short, written};
ghost use Rattle.card_queue.specs.Queues.{queue_numbers, size_refusal, kept_freed};

// An empty queue.
#[unsafe(no_mangle)]
pub extern "C" fn pelgrant_queue_fresh(kept: &mut [u32]) -> u8
    ensures number { result ≡ size_refusal (length kept.old) }
    ensures kept { kept.new ≡ written (size_refusal (length kept.old)) (queue_numbers fresh_queue) kept.old }
{
    card_queue::pelgrant_queue_fresh(kept)
}

// How many octets a level would give back.
#[unsafe(no_mangle)]
pub extern "C" fn pelgrant_queue_freed(kept: &[u32], level: u8, answer: &mut [u64]) -> u8
    ensures number { result ≡ short 1 answer.old or_else (kept_freed kept.now level).refusal }
    ensures answer { answer.new ≡ written (short 1 answer.old) ((kept_freed kept.now level).octets ∷ []) answer.old }
{
    card_queue::pelgrant_queue_freed(kept, level, answer)
}

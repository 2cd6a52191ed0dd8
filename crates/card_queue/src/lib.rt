// The calls for a host in C or Rust that go by the numbers of a queue alone: an empty one, and a question.
#![tactic(auto)]

ghost use Rattle.std.specs.Prelude.{◌≡◌, [], ◌∷◌, length};
ghost use Rattle.refusals.specs.Refusals.{◌or_else◌};
ghost use Rattle.totals.specs.Totals.{any_above};
ghost use Rattle.room.specs.Rules.{freed_paper};
ghost use Rattle.queue.specs.Calls.{fresh_queue};
ghost use Rattle.card.specs.Card.{short, written};
ghost use Rattle.card_queue.specs.Queues.{queue_numbers, queue_of, size_refusal, kept_freed};
ghost use Rattle.card_queue.specs.Parts.{Lent};

use card::put;
use refusals::{Refusal, number_of, refusal_16, refuse};
use room::{Numbers, Outline};

// An empty queue. Here and in the question the number is C's: these are the exports, but for their archive.
#[tactic(auto, using(refusals::proofs::RefusalLaws::judged), unfolding(card::specs::Card::written))]
pub fn pelgrant_queue_fresh(kept: &mut [u32]) -> u8
    ensures number { result ≡ size_refusal (length kept.old) }
    ensures kept { kept.new ≡ written (size_refusal (length kept.old)) (queue_numbers fresh_queue) kept.old }
{
    if let Err(size) = refuse(kept.len() != 70, Refusal::Record) {
        return size.number();
    }
    kept.fill(0);
    0
}

// Whether a length fits no octet. All are looked at, and no branch depends on them.
fn any_wide(lengths: &[u32]) -> bool
    ensures { result ≡ any_above 255 lengths.now }
{
    let mut wide = false;
    for length in lengths {
        wide |= 255 < *length;
    }
    wide
}

// A queue by its parts. It is judged before any number is taken for its field.
#[tactic(auto, using(refusals::proofs::RefusalLaws::judged), unfolding(crate::specs::Queues::kept_refusal))]
pub fn numbers(kept: &[u32]) -> Result<Numbers<'_>, Refusal>
    ensures { Lent kept.now result }
{
    refuse(kept.len() != 70, Refusal::Record)?;
    let lengths = &kept[3..35];
    refuse(any_wide(lengths), Refusal::Record)?;
    Ok(Numbers {
        outline: Outline {
            head: kept[0],
            first: kept[1],
            count: kept[2],
            totals: &kept[67..],
        },
        lengths,
    })
}

// The clock readings of a queue that `numbers` has let by.
pub fn readings(kept: &[u32]) -> &[u32]
    requires { length kept.now ≡ 70 }
    ensures { result.now ≡ (queue_of kept.now).clocks }
{
    &kept[35..67]
}

#[tactic(auto, using(refusals::proofs::RefusalLaws::judged), unfolding(crate::specs::Queues::kept_freed, room::specs::Rules::freed_paper))]
fn freed(kept: &[u32], level: u8) -> Result<u32, Refusal>
    ensures { freed_paper result ≡ kept_freed kept.now level }
{
    numbers(kept)?.outline.freed(level)
}

// What a level would give back.
#[tactic(auto, using(refusals::proofs::RefusalLaws::judged), unfolding(card::specs::Card::written, room::specs::Rules::freed_paper))]
pub fn pelgrant_queue_freed(kept: &[u32], level: u8, answer: &mut [u64]) -> u8
    ensures number { result ≡ short 1 answer.old or_else (kept_freed kept.now level).refusal }
    ensures answer { answer.new ≡ written (short 1 answer.old) ((kept_freed kept.now level).octets ∷ []) answer.old }
{
    if let Err(flat) = refusal_16(answer.len(), 1) {
        return flat.number();
    }
    let freed = freed(kept, level);
    put(&[u64::from(freed.unwrap_or(0))], answer);
    number_of(&freed)
}

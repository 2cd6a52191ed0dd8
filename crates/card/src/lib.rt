// What the exported forms share: numbers put at the front of a lent slice, and slices that are too short.
#![tactic(auto)]

ghost use Rattle.std.specs.Prelude.{◌≡◌, ◌≤◌, length};
ghost use Rattle.refusals.specs.Refusals.{◌or_else◌, refusal_of, refusal16};
ghost use Rattle.card.specs.Card.{put, flag};

use refusals::{Refusal, refusal_16};

// The values, to the front of a slice. Each exported call refuses a shorter slice before it calls this.
#[tactic(auto, unfolding(crate::specs::Card::put))]
pub fn put(values: &[u64], slot: &mut [u64])
    requires { length values.now ≤ length slot.old }
    ensures { slot.new ≡ put values.now slot.old }
{
    for (i, value) in values.iter().enumerate() {
        slot[i] = *value;
    }
}

// One of two answer slices is too short, for n and for m.
#[tactic(auto, using(refusals::proofs::RefusalLaws::judged))]
pub fn short_two(first: usize, n: usize, second: usize, m: usize) -> Result<(), Refusal>
    ensures { refusal_of result ≡ refusal16 first n or_else refusal16 second m }
{
    refusal_16(first, n)?;
    refusal_16(second, m)
}

// 1 for what holds, 0 for what does not, under the name that the exports' definitions have for it.
pub fn flag(holds: bool) -> u64
    ensures { result ≡ flag holds }
{
    u64::from(holds)
}

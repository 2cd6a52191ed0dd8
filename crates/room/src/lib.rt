// The waiting room by the numbers of its record: what is refused, what comes and goes, and what a level would give back.
#![tactic(auto)]

ghost use Rattle.std.specs.Prelude.{◌≡◌, ◌||◌, ◌<◌, ◌≤◌, length};
ghost use Rattle.onward.specs.Onward.{wait_of};
ghost use Rattle.node.specs.Node.{forward_answer, forward_buffer};
ghost use Rattle.room.specs.Waiting.{misplaced, overfull};
ghost use Rattle.room.specs.Rules.{take_buffer, freed_answer, freed_paper};
ghost use Rattle.room.specs.Parts.{outlined, numbered, clocked, Judged, spot_by, spot_paper, Fits, store_by, octets_from, sent_of, Counts, step_of, step_paper};

use onward::Hop;
use refusals::{Refusal, refuse};
use ring::place_after;

mod numbers;

pub use numbers::{Numbers, Outline};

// The record: the first frame's place in the store and its slot, how many wait, the length and clock reading in each slot, and
// what levels 1, 2 and 3 would give back of all that wait.
#[derive(Clone, Copy)]
pub struct Queue {
    pub head: u32,
    pub first: u32,
    pub count: u32,
    pub lengths: [u8; 32],
    pub clocks: [u32; 32],
    pub totals: [u32; 3],
}

// What a frame that comes gets: the slot for it, and how many of its blocks the totals count.
#[derive(Clone, Copy, Debug, PartialEq, Eq)]
pub struct Spot {
    pub slot: u32,
    pub blocks: usize,
}

// Of a frame that was sent on: its length then, and how many blocks could be dropped from it as it waited.
#[derive(Clone, Copy, Debug, PartialEq, Eq)]
struct Gone {
    length: usize,
    blocks: usize,
}

// A frame that lies in one piece goes through the node.
#[tactic(auto, using(refusals::proofs::RefusalLaws::judged), unfolding(onward::specs::Sent::sent_paper))]
fn send_one(frame: &[u8], hop: Hop, out: &mut [u8]) -> Result<Gone, Refusal>
    ensures gone { (sent_of result ≡ forward_answer hop.level (wait_of hop.from hop.to) hop.address frame.now out.old) × Counts frame.now result }
    ensures buffer { out.new ≡ forward_buffer hop.level (wait_of hop.from hop.to) hop.address frame.now out.old }
{
    let length = node::forward(frame, hop, out)?;
    let blocks = totals::droppable(frame);
    Ok(Gone { length, blocks })
}

// The frame of n octets that begins at a place; one that lies round the store's end is put together first.
#[tactic(auto, using(ring::proofs::RingLaws::turned_straight))]
fn send_on(store: &[u8], at: usize, n: usize, hop: Hop, out: &mut [u8]) -> Result<Gone, Refusal>
    requires { (at ≤ length store.now) × (n ≤ length store.now) × (n < 256) }
    ensures gone { (sent_of result ≡ forward_answer hop.level (wait_of hop.from hop.to) hop.address (octets_from at n store.now) out.old) × Counts (octets_from at n store.now) result }
    ensures buffer { out.new ≡ forward_buffer hop.level (wait_of hop.from hop.to) hop.address (octets_from at n store.now) out.old }
{
    if n <= store.len() - at {
        return send_one(&store[at..at + n], hop, out);
    }
    let whole = ring::gather(store, at, n);
    send_one(&whole[0..n], hop, out)
}

// What a take answers, the record's numbers that it changes, and the blocks by which the totals fall.
#[derive(Clone, Copy, Debug, PartialEq, Eq)]
pub struct Step {
    pub length: usize,
    pub head: u32,
    pub first: u32,
    pub count: u32,
    pub blocks: usize,
}

impl Outline<'_> {
    // 14, but for the lengths.
    fn amiss(&self, n: usize) -> bool
        ensures { result ≡ (misplaced n (outlined self.now) || overfull (outlined self.now)) }
    {
        let Outline {
            head,
            first,
            count,
            totals,
        } = *self;
        let over = totals::overfull(totals);
        (16384 < n) | (32 < count) | (31 < first) | (n < head as usize) | over
    }

    // A question. No 32 lengths reach past the longest store, each an octet, so they are not asked for.
    #[tactic(auto, using(refusals::proofs::RefusalLaws::judged, crate::proofs::FreedLaws::longest_bare), unfolding(crate::specs::Rules::freed_answer, crate::specs::Rules::freed_paper))]
    pub fn freed(&self, level: u8) -> Result<u32, Refusal>
        ensures { freed_paper result ≡ freed_answer (outlined self.now) level }
    {
        let wrong = self.amiss(16384);
        refuse(wrong, Refusal::Record)?;
        let level = usize::from(level);
        refusals::refusal_10(level)?;
        Ok(totals::total_of(self.totals, level))
    }
}

impl Numbers<'_> {
    // 14, or the octets in use. Inlined, since a machine waits where it reads in one piece what was just stored in smaller ones.
    #[tactic(auto, using(refusals::proofs::RefusalLaws::judged, crate::proofs::InsideLaws::outside_14))]
    #[inline(always)]
    fn judge(&self, n: usize) -> Result<u32, Refusal>
        ensures { Judged n (numbered self.now) result }
    {
        let Outline { first, count, .. } = self.outline;
        let wrong = self.outline.amiss(n);
        refuse(wrong, Refusal::Record)?;
        let used = ring::sum_used(self.lengths, first, count);
        refuse(n < used as usize, Refusal::Record)?;
        Ok(used)
    }

    // A frame comes.
    #[tactic(auto, using(refusals::proofs::RefusalLaws::judged), unfolding(crate::specs::Parts::entry_by, crate::specs::Parts::spot_by, crate::specs::Parts::spot_paper, crate::specs::Parts::store_by))]
    pub fn enter(&self, store: &mut [u8], frame: &[u8]) -> Result<Spot, Refusal>
        ensures spot { spot_paper result ≡ spot_by (length store.old) (numbered self.now) frame.now }
        ensures fits { Fits (numbered self.now) frame.now result }
        ensures store { store.new ≡ store_by store.old (numbered self.now) frame.now }
    {
        let Outline {
            head,
            first,
            count,
            ..
        } = self.outline;
        let n = store.len();
        let used = self.judge(n)?;
        frame::taken_refusal(frame)?;
        let full = (32 <= count) | (n < used as usize + frame.len());
        refuse(full, Refusal::QueueFull)?;
        let at = place_after(head, used, n as u32);
        ring::lay(store, at as usize, frame);
        let slot = place_after(first, count, 32);
        let blocks = totals::droppable(frame);
        Ok(Spot { slot, blocks })
    }

    // The first frame is to go. The clock readings are a record's 32. One reading is given, the other is the frame's own: no hop yet.
    #[tactic(auto, using(refusals::proofs::RefusalLaws::judged))]
    pub fn take(
        &self,
        clocks: &[u32],
        store: &[u8],
        to: u32,
        level: u8,
        address: u16,
        out: &mut [u8],
    ) -> Result<Step, Refusal>
        requires { length clocks.now ≡ 32 }
        ensures step { step_paper (clocked self.now clocks.now) result ≡ step_of store.now (clocked self.now clocks.now) to level address out.old }
        ensures buffer { out.new ≡ take_buffer store.now (clocked self.now clocks.now) to level address out.old }
    {
        let Outline {
            head,
            first,
            count,
            ..
        } = self.outline;
        let n = store.len();
        self.judge(n)?;
        refuse(count == 0, Refusal::QueueEmpty)?;
        let slot = first as usize;
        let length = self.lengths[slot];
        let hop = Hop {
            level,
            from: clocks[slot],
            to,
            address,
        };
        let gone = send_on(store, head as usize, length as usize, hop, out)?;
        let others = count - 1;
        Ok(Step {
            length: gone.length,
            head: place_after(head, length, n as u32),
            first: place_after(first, 1, 32),
            count: others,
            blocks: gone.blocks,
        })
    }
}

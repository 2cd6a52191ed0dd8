// The waiting room at a node: frames wait in a lent store, first in, first out, until they are sent on; and what a level would give back of them.
#![tactic(auto)]

ghost use Rattle.std.specs.Prelude.{◌≡◌, []};
ghost use Rattle.ring.specs.Parts.{Slots};
ghost use Rattle.room.specs.Plain.{entered, left};
ghost use Rattle.room.specs.Waiting.{waiting};
ghost use Rattle.room.specs.Parts.{bare, unclocked, outlined, numbered};
ghost use Rattle.room.specs.Rules.{enter_store, take_buffer, freed_answer, freed_paper};
ghost use Rattle.queue.specs.Calls.{fresh_queue, enter_answer, entered_paper, take_answer, taken_paper};

use refusals::Refusal;
use room::{Numbers, Outline, Queue};

// What a take answers of the frame that it sent on: its length, and the record without it.
#[derive(Clone, Copy)]
pub struct Taken {
    pub length: usize,
    pub after: Queue,
}

pub fn fresh() -> Queue
    ensures { result ≡ fresh_queue }
{
    Queue {
        head: 0,
        first: 0,
        count: 0,
        lengths: [0; 32],
        clocks: [0; 32],
        totals: [0; 3],
    }
}

// The lengths as numbers that a machine adds four at a time. A loop: the array's `map` goes octet by octet, four times as slow.
fn widened(lengths: [u8; 32]) -> [u32; 32]
    ensures { (result ≡ lengths) × Slots result }
{
    let mut wide = [0; 32];
    for i in 0..32 {
        wide[i] = u32::from(lengths[i]);
    }
    wide
}

// What a record shows without its slots, and with them.
fn outline(q: &Queue) -> Outline<'_>
    ensures { outlined result ≡ bare q.now.head q.now.first q.now.count [] q.now.totals }
{
    Outline {
        head: q.head,
        first: q.first,
        count: q.count,
        totals: &q.totals,
    }
}

fn numbers<'a>(q: &'a Queue, wide: &'a [u32; 32]) -> Numbers<'a>
    requires { (wide.now ≡ q.now.lengths) × Slots wide.now }
    ensures { numbered result ≡ unclocked q.now }
{
    Numbers {
        outline: outline(q),
        lengths: wide,
    }
}

// A frame comes at the clock reading given, and waits behind those that wait. Refused, store and record are as they came.
pub fn enter(store: &mut [u8], q: Queue, frame: &[u8], clock: u32) -> Result<Queue, Refusal>
    ensures answer { entered_paper q result ≡ enter_answer store.old q frame.now clock }
    ensures store { store.new ≡ enter_store store.old q frame.now }
    ensures waits { waiting store.new (entered_paper q result).after ≡ entered (entered_paper q result).refusal (waiting store.old q) frame.now clock }
{
    let wide = widened(q.lengths);
    let spot = numbers(&q, &wide).enter(store, frame)?;
    let slot = spot.slot as usize;
    let mut after = q;
    after.count += 1;
    after.lengths[slot] = frame.len() as u8;
    after.clocks[slot] = clock;
    totals::raise(&mut after.totals, spot.blocks);
    Ok(after)
}

// The first frame is sent on by the node's rule, its wait running from its arrival to the present reading. Refused, it waits on.
// The other reading is the frame's own, so that what is given is no hop yet.
pub fn take(
    store: &[u8],
    q: Queue,
    to: u32,
    level: u8,
    address: u16,
    out: &mut [u8],
) -> Result<Taken, Refusal>
    ensures answer { taken_paper q result ≡ take_answer store.now q to level address out.old }
    ensures buffer { out.new ≡ take_buffer store.now q to level address out.old }
    ensures waits { waiting store.now (taken_paper q result).after ≡ left (taken_paper q result).refusal (waiting store.now q) }
{
    let wide = widened(q.lengths);
    let step = numbers(&q, &wide).take(&q.clocks, store, to, level, address, out)?;
    let mut after = Queue {
        head: step.head,
        first: step.first,
        count: step.count,
        ..q
    };
    totals::lower(&mut after.totals, step.blocks);
    Ok(Taken {
        length: step.length,
        after,
    })
}

// What a level would give back of all that wait: the total kept for it, whatever waits.
pub fn freed(q: Queue, level: u8) -> Result<u32, Refusal>
    ensures { freed_paper result ≡ freed_answer q level }
{
    outline(&q).freed(level)
}

// The octets that a level gives back of a frame, and the totals that a queue keeps of levels 1, 2 and 3.
#![tactic(auto)]

ghost use Rattle.std.specs.Prelude.{◌≡◌, ℕ, ◌*◌, ◌<◌, ◌≤◌, min, List, length};
ghost use Rattle.totals.specs.Totals.{total, raised, lowered, any_above};
ghost use Rattle.totals.specs.Parts.{droppable, Totalled};

use frame::{field_c, is_voice};

// The blocks that may still be dropped from a frame: C of voice, none of signalling.
pub fn droppable(frame: &[u8]) -> usize
    ensures { (result ≡ droppable frame.now) × (result < 4) }
{
    if is_voice(frame) { field_c(frame) } else { 0 }
}

// A block is 16 octets. `raise` and `lower` know how many there are.
fn given_back(blocks: usize, level: usize) -> u32
    requires { blocks < 4 }
    ensures { (result ≡ 16 * min blocks level) × (result ≤ 48) }
{
    (16 * blocks.min(level)) as u32
}

// Whether a total is above 1,536. `room` lends three: the slice's type does not say so, and three tests need no loop and no branch.
pub fn overfull(totals: &[u32]) -> bool
    requires { length totals.now ≡ 3 }
    ensures { result ≡ any_above 1536 totals.now }
{
    (1536 < totals[0]) | (1536 < totals[1]) | (1536 < totals[2])
}

// The total of a level. `room` lends three, and has judged the level.
pub fn total_of(totals: &[u32], level: usize) -> u32
    requires { (length totals.now ≡ 3) × (level ≤ 3) }
    ensures { result ≡ total totals.now level }
{
    if level == 0 { 0 } else { totals[level - 1] }
}

// The totals with a frame more, which has so many blocks to drop. `queue::enter` and the exported form call it once `room` has judged the three. A slice and no
// array, since the end of a host's slice has an array's type only behind a test that cannot fail.
pub fn raise(totals: &mut [u32], blocks: usize)
    requires { Totalled totals.old × (blocks < 4) }
    ensures { (f : List ℕ) → blocks ≡ droppable f → totals.new ≡ raised f totals.old }
{
    totals[0] += given_back(blocks, 1);
    totals[1] += given_back(blocks, 2);
    totals[2] += given_back(blocks, 3);
}

// The totals with a frame less, each no lower than 0. `queue::take` and the exported form call it with three, and with the blocks that `room` found.
pub fn lower(totals: &mut [u32], blocks: usize)
    requires { (length totals.old ≡ 3) × (blocks < 4) }
    ensures { (f : List ℕ) → blocks ≡ droppable f → totals.new ≡ lowered f totals.old }
{
    totals[0] = totals[0].saturating_sub(given_back(blocks, 1));
    totals[1] = totals[1].saturating_sub(given_back(blocks, 2));
    totals[2] = totals[2].saturating_sub(given_back(blocks, 3));
}

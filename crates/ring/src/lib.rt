// Rings: octets laid into a lent store from a place on, round its end, and read back; and the slots in use of 32, added.
#![tactic(auto)]

ghost use Rattle.std.specs.Prelude.{◌≡◌, ◌+◌, ◌<◌, ◌≤◌, ◌^◌, length, take};
ghost use Rattle.ring.specs.Ring.{place_after, turned, laid, used, sum};
ghost use Rattle.ring.specs.Parts.{Slots};

// The place `ahead` places after `at`, of n. What stands in a record has been judged before it comes here.
pub fn place_after(at: u32, ahead: u32, n: u32) -> u32
    requires { at + ahead < 2 ^ 32 }
    ensures { result ≡ place_after at ahead n }
{
    let sum = at + ahead;
    if sum < n { sum } else { sum - n }
}

// The octets from `at` on, round the end: at most two copies. `room` has judged the place and the length.
pub fn lay(store: &mut [u8], at: usize, octets: &[u8])
    requires { (at ≤ length store.old) × (length octets.now ≤ length store.old) }
    ensures { store.new ≡ laid at octets.now store.old }
{
    let (front, back) = octets.split_at(octets.len().min(store.len() - at));
    octets::copy(front, &mut store[at..]);
    octets::copy(back, store);
}

// The n octets from `at` on, round the end, at the front of 255. `room` has judged the place and the length.
pub fn gather(store: &[u8], at: usize, n: usize) -> [u8; 255]
    requires { (at ≤ length store.now) × (n ≤ length store.now) × (n < 256) }
    ensures { (take n result ≡ take n (turned at store.now)) × (length result ≡ 255) }
{
    let mut part = [0; 255];
    let k = n.min(store.len() - at);
    octets::copy(&store[at..at + k], &mut part);
    octets::copy(&store[..n - k], &mut part[k..]);
    part
}

// The slots in use, added. All 32 are looked at, however many are in use, and no branch depends on them: a place of 32 bits, which `enumerate` does not
// give, makes each test a mask. `room` has judged the record.
pub fn sum_used(slots: &[u32], first: u32, count: u32) -> u32
    requires { Slots slots.now × (first < 32) × (count ≤ 32) }
    ensures { (result ≡ sum (used first count slots.now)) × (result < 8192) }
{
    let mut added = 0;
    for i in 0..32 {
        let counts = u32::from((i + 32 - first) % 32 < count);
        added += slots[i as usize] * counts;
    }
    added
}

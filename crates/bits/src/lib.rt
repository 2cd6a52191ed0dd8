// Octets as bits, the lowest of each octet first: read many at a time, and stored an octet at a time.
#![tactic(auto)]

ghost use Rattle.std.specs.Prelude.{◌≡◌, ◌++◌, ◌+◌, ◌*◌, ◌/◌, ◌^◌, ◌<◌, ◌≤◌, length, take, drop};
ghost use Rattle.bits.specs.Bits.{bits, value, lowest, octets_of};

// Eight octets or fewer as one number, the first the lowest.
fn word(octets: &[u8]) -> u64
    requires { length octets.now ≤ 8 }
    ensures { result ≡ value (bits octets.now) }
{
    let mut eight = [0; 8];
    eight[..octets.len()].copy_from_slice(octets);
    u64::from_le_bytes(eight)
}

// The same of fewer than eight, one by one: a copy of as many as there are is a call that a host would have to link.
fn few(octets: &[u8]) -> u64
    requires { length octets.now < 8 }
    ensures { result ≡ value (bits octets.now) }
{
    let mut w = 0;
    for k in (0..octets.len()).rev() {
        w = w * 256 + u64::from(octets[k]);
    }
    w
}

// Eight octets from j on. Here and below the callers keep within the slice.
pub fn eight(s: &[u8], j: usize) -> u64
    requires { j + 8 ≤ length s.now }
    ensures { result ≡ value (bits (take 8 (drop j s.now))) }
{
    word(&s[j..j + 8])
}

fn from(s: &[u8], j: usize) -> u64
    requires { j ≤ length s.now }
    ensures { result ≡ value (bits (take 8 (drop j s.now))) }
{
    if s.len() - j < 8 {
        few(&s[j..])
    } else {
        eight(s, j)
    }
}

// The n bits from i on as a number, the first the lowest.
pub fn window(s: &[u8], i: usize, n: usize) -> u64
    requires { (n ≤ 56) × (i + n ≤ 8 * length s.now) }
    ensures { result ≡ value (take n (drop i (bits s.now))) }
{
    let w = from(s, i / 8) >> (i % 8);
    let mask: u64 = (1 << n) - 1;
    w & mask
}

// The lowest k octets of a number to out, from `at` on; what is left of the number. The callers show the room.
pub fn pour(out: &mut [u8], at: usize, word: u64, k: usize) -> u64
    requires { at + k ≤ length out.old }
    ensures rest { result ≡ word / 256 ^ k }
    ensures stored { out.new ≡ take at out.old ++ octets_of k (lowest 64 word) ++ drop (at + k) out.old }
{
    let mut rest = word;
    for octet in &mut out[at..at + k] {
        *octet = (rest % 256) as u8;
        rest /= 256;
    }
    rest
}

// Octets read whatever the length of a slice, the number after one, and the copy.
#![tactic(auto)]

ghost use Rattle.std.specs.Prelude.{◌≡◌, ◌++◌, ◌<◌, ◌≤◌, length, drop, get_or};
ghost use Rattle.octets.specs.Octets.{two};
ghost use Rattle.octets.specs.Sequence.{next_number};

// The octet at i, counted from 0; 0 past the end.
pub fn at(s: &[u8], i: usize) -> usize
    ensures { (result ≡ get_or s.now i 0) × (result < 256) }
{
    usize::from(s.get(i).copied().unwrap_or(0))
}

// Two octets from octet n on, counted from 1, little-endian.
pub fn two_octets(s: &[u8], n: usize) -> usize
    ensures { (result ≡ two n s.now) × (result < 65536) }
{
    let low = at(s, n.saturating_sub(1));
    let high = at(s, n);
    low + 256 * high
}

// The number after n in a burst.
pub fn next_number(n: u8) -> u8
    ensures { result ≡ next_number n }
{
    if 15 <= n { 1 } else { n + 1 }
}

// All of src, to the front of out. The callers' proofs show the room. One by one, which a compiler widens: the library's copy between
// two lent slices is a call that a host would have to link.
pub fn copy<T: Copy>(src: &[T], out: &mut [T])
    requires { length src.now ≤ length out.old }
    ensures { out.new ≡ src.now ++ drop (length src.now) out.old }
{
    for (i, value) in src.iter().enumerate() {
        out[i] = *value;
    }
}

// A zero after each five ones, put in and left out, many bits at a time.
#![tactic(auto)]

ghost use Rattle.std.specs.Prelude.{◌≡◌, ℕ, List, Bool, ◌+◌, ◌*◌, ◌%◌, ◌^◌, ◌<◌, ◌≤◌, length, take};
ghost use Rattle.std.proofs.Math.Seq.{slice};
ghost use Rattle.bits.specs.Bits.{bits, lowest, value};
ghost use Rattle.bits.specs.Marks.{marks};
ghost use Rattle.bits.specs.Places.{until};
ghost use Rattle.zeros.specs.Zeros.{stuff, unstuff};
ghost use Rattle.zeros.specs.Parts.{five_ones, zero_behind, places, Calm, carried, Some, More};

// A one for each bit of w where five ones begin, however many bits w is taken for.
fn ones_begin(w: u64) -> u64
    ensures { (n : ℕ) → w < 2 ^ n → result ≡ value (marks five_ones (lowest n w)) }
{
    let two = w & (w >> 1);
    two & (two >> 2) & (w >> 4)
}

// How many bits go by before five ones begin; 64 where none do.
fn fives(w: u64) -> usize
    ensures { result ≡ until five_ones (lowest 64 w) }
{
    ones_begin(w).trailing_zeros() as usize
}

// The lowest k bits of w behind the n bits of made.
fn behind(made: u64, n: usize, w: u64, k: usize) -> u64
    requires { (made < 2 ^ n) × (n + k < 64) }
    ensures { result ≡ made + w % 2 ^ k * 2 ^ n }
{
    made + ((w & ((1 << k) - 1)) << n)
}

// What the first of some bits become, `taken` of them: the n bits of `bits`.
#[derive(Clone, Copy)]
struct Piece {
    bits: u64,
    n: usize,
    taken: usize,
}

// What the first of some bits become, 48 of which stand in a word: the first `sure`, and all of the last five ones that begin among these.
// Whether they are written or read is a bool: the sums go by its number, 1 where a zero is put in.
fn carry_word(bits: u64, sure: usize, writing: bool) -> Piece
    requires { (0 < sure) × (sure ≤ 44) × (bits < 2 ^ 48) }
    ensures { (bs : List Bool) → bits ≡ value (take 48 bs) → sure ≤ length bs → Some writing bs result.bits result.n result.taken }
{
    let put = usize::from(writing);
    let skip = 1 - put;
    let mut w = bits;
    let mut taken: usize = 0;
    let mut made: u64 = 0;
    let mut n: usize = 0;
    let mut j = fives(w);
    // a step is as long as the ones that were found: no range to go over
    while taken + j < sure {
        let k = j + 5;
        made = behind(made, n, w, k);
        n += k + put;
        let gone = k + skip;
        w >>= gone;
        taken += gone;
        j = fives(w);
    }
    let rest = sure.saturating_sub(taken);
    Piece {
        bits: behind(made, n, w, rest),
        n: n + rest,
        taken: taken + rest,
    }
}

// How many zeros of n bits stand behind five ones that are all among them.
fn zeros_behind(w: u64, n: usize) -> usize
    requires { (n ≤ 56) × (w < 2 ^ n) }
    ensures { result ≡ places zero_behind (lowest n w) }
{
    let zeros = ((1 << n) - 1) - w;
    (ones_begin(w) & (zeros >> 5)).count_ones() as usize
}

// Bits that do not make an octet yet: n of them, for the octet at `at`.
#[derive(Clone, Copy, Debug, PartialEq, Eq)]
pub struct Held {
    pub at: usize,
    pub bits: u64,
    pub n: usize,
    ghost few: { n < 8 },
    ghost fit: { bits < 2 ^ n },
}

impl Held {
    // Nothing is held for the octet at `at`.
    pub fn none(at: usize) -> Held
        ensures at { result.at ≡ at }
        ensures bits { result.bits ≡ 0 }
        ensures none { result.n ≡ 0 }
    {
        Held { at, bits: 0, n: 0 }
    }

    // n more bits behind those that are held: whole octets are stored, each once. The callers show the room.
    pub fn put(self, out: &mut [u8], bits: u64, n: usize) -> Held
        requires { (bits < 2 ^ n) × (n ≤ 57) × (8 * self.at + self.n + n ≤ 8 * length out.old) }
        ensures { More out.old out.new self.at self.bits self.n (lowest n bits) result.at result.bits result.n }
    {
        let all = self.n + n;
        let k = all / 8;
        Held {
            at: self.at + k,
            bits: bits::pour(out, self.at, self.bits + (bits << self.n), k),
            n: all % 8,
        }
    }
}

// The bits of octets from `begin` to `end`, the lowest of each octet first.
#[derive(Clone, Copy)]
pub struct Stretch<'a> {
    pub octets: &'a [u8],
    pub begin: usize,
    pub end: usize,
    ghost ordered: { begin ≤ end },
    ghost within: { end ≤ 8 * length octets.now },
}

impl<'a> Stretch<'a> {
    // What some of the bits from i on become. Inlined: a call for each word costs a line's calls a tenth.
    #[inline(always)]
    fn piece(self, i: usize, writing: bool) -> Piece
        requires { i < self.end }
        ensures { Some writing (slice i self.entry.end (bits self.entry.octets.now)) result.bits result.n result.taken }
    {
        let left = (self.end - i).min(48);
        let w = bits::window(self.octets, i, left);
        carry_word(w, left.min(44), writing)
    }

    // How many bits it becomes where it is written. The callers show that the sums fit.
    pub fn sent_length(self) -> usize
        requires { (self.end < 18446744073709551615) × (length (stuff 4 (slice self.begin self.end (bits self.octets.now))) < 18446744073709551616) }
        ensures { result ≡ length (stuff 4 (slice self.entry.begin self.entry.end (bits self.entry.octets.now))) }
    {
        let mut i = self.begin;
        let mut total = 0;
        // a step is as long as the piece took: no range to go over
        while i < self.end {
            let piece = self.piece(i, true);
            total += piece.n;
            i += piece.taken;
        }
        total
    }

    // How many bits it becomes where it is read. The callers show that six ones never stand there in a row, so what is
    // left out is a zero, and the zeros are counted; of 56 bits the first 51 are seen with the five behind them.
    pub fn plain_length(self) -> usize
        requires { Calm 5 (slice self.begin self.end (bits self.octets.now)) }
        ensures { result ≡ length (unstuff 5 (slice self.entry.begin self.entry.end (bits self.entry.octets.now))) }
    {
        let end = self.end;
        let mut i = self.begin;
        let mut out = 0;
        // the last window, of 56 or fewer, is counted behind the loop: `step_by` would not tell where it begins
        while 56 < end - i {
            out += zeros_behind(bits::window(self.octets, i, 56), 56);
            i += 51;
        }
        let n = end - i;
        let last = zeros_behind(bits::window(self.octets, i, n), n);
        end - self.begin - (out + last)
    }

    // What it becomes, put into out behind the bits that are held for it. The callers show the room.
    pub fn carry(self, writing: bool, out: &mut [u8], mut held: Held) -> Held
        requires { (self.end < 18446744073709551615) × (8 * held.at + held.n + length (carried writing (slice self.begin self.end (bits self.octets.now))) ≤ 8 * length out.old) }
        ensures { More out.old out.new held.at held.bits held.n (carried writing (slice self.entry.begin self.entry.end (bits self.entry.octets.now))) result.at result.bits result.n }
    {
        let mut i = self.begin;
        // a step is as long as the piece took: no range to go over
        while i < self.end {
            let piece = self.piece(i, writing);
            held = held.put(&mut *out, piece.bits, piece.n);
            i += piece.taken;
        }
        held
    }
}

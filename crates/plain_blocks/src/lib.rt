// The voice field of G.764, Figure 7, picked and read one bit at a time. An array's places are counted from 0, so that
// sample n stands at n - 1.
#![tactic(auto)]

ghost use Rattle.std.specs.Prelude.{◌≡◌, ◌++◌, ◌+◌, ◌*◌, ◌<◌, ◌≤◌, length, drop};
ghost use Rattle.plain_blocks.specs.Figure7.{picked_octet, picked_block, picked_blocks, read_bit, read_word, read_words};

use octets::at;
use plain_check::{bit, octet_of};
use std::array;

// Octet j + 1 of block b: bit S - b of eight samples. Here and below the callers meet the requires.
fn pick_octet(samples: &[u8], s: usize, b: usize, j: usize) -> u8
    requires { (b < s) × (s ≤ 8) × (j < 16) }
    ensures { result ≡ picked_octet s samples.now b (j + 1) }
{
    let bits: [u8; 8] = array::from_fn(|k| bit(s - b, at(samples, 8 * j + k)));
    octet_of(&bits)
}

fn pick_block(samples: &[u8], s: usize, b: usize, block: &mut [u8])
    requires { (b < s) × (s ≤ 8) × (16 ≤ length block.old) }
    ensures { block.new ≡ picked_block s samples.now b ++ drop 16 block.old }
{
    for (j, octet) in block[..16].iter_mut().enumerate() {
        *octet = pick_octet(samples, s, b, j);
    }
}

// All the blocks of samples of S bits, the block of the highest bits first.
pub fn pick_blocks(samples: &[u8], s: usize, voice: &mut [u8])
    requires { (s ≤ 8) × (16 * s ≤ length voice.old) }
    ensures { voice.new ≡ picked_blocks s samples.now s ++ drop (16 * s) voice.old }
{
    for b in 0..s {
        pick_block(samples, s, b, &mut voice[16 * b..]);
    }
}

// The bit of sample i + 1 in block b.
fn read_bit(voice: &[u8], i: usize, b: usize) -> u8
    requires { (i < 128) × (b < 8) }
    ensures { (result ≡ read_bit voice.now (i + 1) b) × (result < 2) }
{
    bit(1 + i % 8, at(voice, 16 * b + i / 8))
}

// Sample i + 1 as a word: the first block has its highest bit.
fn read_word(voice: &[u8], width: usize, i: usize) -> u8
    requires { (width ≤ 8) × (i < 128) }
    ensures { result ≡ read_word voice.now width (i + 1) }
{
    let mut word: u8 = 0;
    for b in 0..width {
        word = 2 * word + read_bit(voice, i, b);
    }
    word
}

// The 128 words of a voice field with as many blocks as they have bits.
pub fn read_words(voice: &[u8], width: usize) -> [u8; 128]
    requires { width ≤ 8 }
    ensures { result ≡ read_words voice.now width }
{
    array::from_fn(|i| read_word(voice, width, i))
}

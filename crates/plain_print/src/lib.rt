// What `plain_walk` prints, on standard output: octets, bits, the passes over a frame and the division of its check.
#![tactic(auto)]

ghost use Rattle.std.specs.Prelude.{◌≡◌, ◌<◌, ◌≤◌, length};
ghost use Rattle.plain_passes.specs.Passes.{drop_pass};

use onward::Hop;
use plain_passes::{address_pass, drop_pass, seal_pass, stamp_pass, wait_between};
use std::io;
use std::io::Write;

// A text is octets, as every title below: these functions take any octets, and a &str would ask more of their callers.
pub fn say<R: Print>(rt: &R, text: &[u8]) -> io::Result<()> {
    io::writer(rt).write_all(text)
}

// A title, and the octets of a frame. A bar stands before each block and before the check.
pub fn show<R: Print>(rt: &R, title: &[u8], frame: &[u8]) -> io::Result<()> {
    say(rt, title)?;
    for (i, octet) in frame.iter().enumerate() {
        if i % 16 == 8 {
            print!(rt; " |")?;
        }
        print!(rt; " {octet}")?;
    }
    println!(rt;)
}

// The first n of them.
pub fn show_front<R: Print>(rt: &R, title: &[u8], octets: &[u8], n: usize) -> io::Result<()> {
    show(rt, title, &octets[..n.min(octets.len())])
}

// The bits from `from` on, each under its own power. Here and below the callers meet the requires.
fn say_bits<R: Print>(rt: &R, bits: &[u8], from: usize) -> io::Result<()>
    requires { from ≤ length bits.now }
{
    for _ in 0..from {
        print!(rt; " ")?;
    }
    for bit in &bits[from..] {
        print!(rt; "{bit}")?;
    }
    println!(rt;)
}

// The four passes over a frame, each with what it leaves in the buffer.
fn walk<R: Print>(rt: &R, frame: &[u8], hop: Hop, out: &mut [u8]) -> io::Result<()>
    requires { (10 ≤ length frame.now) × (hop.address < 8192) × (length out.old ≡ length (drop_pass hop.level frame.now)) }
{
    drop_pass(frame, usize::from(hop.level), out);
    show(rt, b"dropped  ", out)?;
    stamp_pass(wait_between(hop.from, hop.to), out);
    show(rt, b"stamped  ", out)?;
    address_pass(usize::from(hop.address), out);
    show(rt, b"addressed", out)?;
    seal_pass(out);
    show(rt, b"sealed   ", out)
}

// The passes over a frame of at most 138 octets, in a buffer of their own.
pub fn walk_on<R: Print>(rt: &R, frame: &[u8], hop: Hop) -> io::Result<()>
    requires { (10 ≤ length frame.now) × (length frame.now ≤ 138) × (hop.address < 8192) }
{
    let mut out = [0u8; 138];
    let n = plain_passes::length_after(frame, usize::from(hop.level));
    walk(rt, frame, hop, &mut out[..n])
}

// The division of octets 1 to 8, line by line.
fn divide<R: Print>(rt: &R, bits: &mut [u8]) -> io::Result<()>
    requires { length bits.old ≡ 80 }
{
    for leading in 0..64 {
        plain_check::reduce(&mut bits[leading..]);
        say_bits(rt, bits, leading + 1)?;
    }
    Ok(())
}

// The check of octets 1 to 8, divided as on paper.
pub fn check<R: Print>(rt: &R, frame: &[u8]) -> io::Result<()>
    requires { 10 ≤ length frame.now }
{
    let mut bits = [0u8; 80];
    plain_check::lay_out(&frame[..8], &mut bits);
    say_bits(rt, &bits, 0)?;
    plain_check::complement(&mut bits);
    say_bits(rt, &bits, 0)?;
    divide(rt, &mut bits)?;
    let check = plain_check::check(&frame[..8]);
    show(rt, b"complemented, and as two octets:", &check)
}

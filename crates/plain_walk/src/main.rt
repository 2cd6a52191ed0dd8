// A small frame on its way through the plain engine, pass by pass, with the quick engine's octets below; and the check of its
// octets 1 to 8, divided as on paper. docs/PLAIN.md explains what is printed.
#![tactic(auto)]

ghost use Rattle.std.specs.Prelude.{◌<◌, ◌≤◌, length};

use coding::Coding;
use endpoint::Words;
use onward::Hop;
use origin::{Packet, Step};
use plain_print::{show, show_front};
use refusals::Refusal;
use std::io;

// The whole call of the quick engine, and of both. A refused call has written nothing.
fn quick_send<R: Print>(rt: &R, packet: Packet, samples: &[u8], hop: Hop) -> io::Result<()> {
    let mut sseq: u8 = 0;
    let mut out = [0u8; 138];
    let sent = origin::send(&mut sseq, packet, samples, hop, &mut out);
    show_front(rt, b"quick    ", &out, sent.unwrap_or(0))
}

fn both_send<R: Print>(
    rt: &R,
    packet: Packet,
    samples: &[u8],
    hop: Hop,
    out: &mut [u8],
) -> io::Result<()> {
    let mut sseq: u8 = 0;
    let sent = plain::send(&mut sseq, packet, samples, hop, out);
    show_front(rt, b"plain    ", out, sent.unwrap_or(0))?;
    quick_send(rt, packet, samples, hop)
}

// The first packet of a burst, with noise 3, from the samples to the frame sent to address 128.
#[tactic(auto, using(coding::proofs::CodingLaws::s_le_8))]
fn from_origin<R: Print>(
    rt: &R,
    coding: Coding,
    samples: &[u8],
    level: u8,
    wait: u32,
    out: &mut [u8],
) -> io::Result<()>
    requires { coding.0 < 32 }
{
    let packet = Packet {
        step: Step::Start,
        coding,
        noise: 3,
    };
    let hop = Hop {
        level,
        from: 0,
        to: wait,
        address: 128,
    };
    let s = usize::from(coding.sample_bits());
    let head = plain_packet::header(coding.0, 1, 0, packet.noise);
    let mut made = [0u8; 138];
    plain_packet::make(head, s, samples, &mut made);
    let frame = &made[..8 + 16 * s + 2];
    show(rt, b"made     ", frame)?;
    plain_print::walk_on(rt, frame, hop)?;
    both_send(rt, packet, samples, hop, out)
}

// The frame through a node, which sends it on to address 129.
fn through_node<R: Print>(
    rt: &R,
    frame: &[u8],
    level: u8,
    wait: u32,
    out: &mut [u8],
) -> io::Result<()>
    requires { (10 ≤ length frame.now) × (length frame.now ≤ 138) }
{
    let hop = Hop {
        level,
        from: 0,
        to: wait,
        address: 129,
    };
    show(rt, b"received ", frame)?;
    plain_print::walk_on(rt, frame, hop)?;
    let sent = plain::forward(frame, hop, out);
    show_front(rt, b"plain    ", out, sent.unwrap_or(0))?;
    let mut other = [0u8; 138];
    let quick = node::forward(frame, hop, &mut other);
    show_front(rt, b"quick    ", &other, quick.unwrap_or(0))
}

// What was heard: S, the blocks dropped and the width, and the first four words; zeros where the frame is refused.
fn say_heard<R: Print>(rt: &R, title: &[u8], heard: Result<Words, Refusal>) -> io::Result<()> {
    let words = heard.unwrap_or(Words {
        s: 0,
        dropped: 0,
        width: 0,
        samples: [0; 128],
    });
    show(rt, title, &[words.s, words.dropped, words.width])?;
    show_front(rt, b"words    ", &words.samples, 4)
}

fn main(rt: HostRuntime) -> io::Result<()> {
    let mut samples = [0u8; 128];
    samples[..3].copy_from_slice(&[2, 1, 3]);
    println!(&rt; "The origin: type 2, samples 2, 1, 3 and zeros, level 0, a wait of 7 ms")?;
    let mut frame = [0u8; 42];
    from_origin(&rt, Coding(2), &samples, 0, 7, &mut frame)?;
    println!(&rt; "\nIts check: octets 1 to 8 and sixteen zeros, divided")?;
    plain_print::check(&rt, &frame)?;
    println!(&rt; "\nA node: level 1, a wait of 250 ms")?;
    let mut next = [0u8; 42];
    through_node(&rt, &frame, 1, 250, &mut next)?;
    println!(&rt; "\nThe reader: S, blocks dropped and width, and the first four words")?;
    say_heard(&rt, b"plain    ", plain::read(&next))?;
    say_heard(&rt, b"quick    ", endpoint::read(&next))?;
    println!(&rt; "\nThe origin with a type that has droppable blocks: type 20, level 1, no wait")?;
    let mut frame = [0u8; 58];
    from_origin(&rt, Coding(20), &samples, 1, 0, &mut frame)
}

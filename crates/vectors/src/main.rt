// Published vectors of the ISO 3309 check, run through the proved code: a frame's octets, the check of all but its last
// two, low octet first, and whether the last two are that check.
//
// The octet fe by hand. Its bits, the lowest first, are 0 1 1 1 1 1 1 1. The register moves down one place a bit, and
// 8408 is added (xor) where the bit that leaves it is not the bit that comes:
//
//     ffff  0  7fff xor 8408 = fbf7
//     fbf7  1  7dfb
//     7dfb  1  3efd
//     3efd  1  1f7e
//     1f7e  1  0fbf xor 8408 = 8bb7
//     8bb7  1  45db
//     45db  1  22ed
//     22ed  1  1176
//
// The complement of 1176 is ee89, sent as 89 ee.
#![tactic(auto)]

use std::io;

fn hex(rt: &HostRuntime, s: &[u8]) -> io::Result<()> {
    for octet in s {
        print!(rt; "{octet:02x} ")?;
    }
    Ok(())
}

// The check of all but the last two octets.
fn check(frame: &[u8]) -> u16 {
    fcs::fcs(&frame[..frame.len().saturating_sub(2)])
}

fn line(rt: &HostRuntime, frame: &[u8]) -> io::Result<()> {
    let sent = check(frame);
    hex(rt, frame)?;
    print!(rt; "-> ")?;
    hex(rt, &sent.to_le_bytes())?;
    if fcs::good(frame, frame.len().saturating_sub(2)) {
        println!(rt; "good")
    } else {
        println!(rt; "not good")
    }
}

fn main(rt: HostRuntime) -> io::Result<()> {
    // ASCII 123456789, whose check is 906e
    line(&rt, b"123456789\x6e\x90")?;
    // SABM and UA, of X.25's appendix
    line(&rt, b"\x03\x3f\x5b\xec")?;
    line(&rt, b"\x01\x73\x83\x57")?;
    // the same with one bit wrong, in the check and in an octet
    line(&rt, b"\x03\x3f\x5b\xed")?;
    line(&rt, b"\x01\x72\x83\x57")?;
    // no octets, and the octet by hand
    line(&rt, b"\x00\x00")?;
    line(&rt, b"\xfe\x89\xee")
}

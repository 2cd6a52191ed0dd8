// A trunk that dies and comes back, played second by second at both of its ends with the default times (10 s, 25 s). Each frame
// is written, carried while the trunk is alive, and read. A line for each event that sends or changes something: the clock, the
// end, its two states, the frame with its bits and N/A, and conditioning.
#![tactic(auto)]

use onward::Hop;
use std::io;
use trunk::event_of;
use watch::{Conditioning, Event, Sends, Watch, Watched};

#[derive(Clone, Copy)]
struct Line {
    west: Watch,
    east: Watch,
}

// Something is sent, or a state is another.
fn worth_a_line(before: Watch, told: Watched) -> bool {
    told.sends != Sends::Nothing
        || before.originating != told.after.originating
        || before.terminating != told.after.terminating
}

fn show(rt: &HostRuntime, clock: u64, end: &str, before: Watch, told: Watched) -> io::Result<()> {
    if !worth_a_line(before, told) {
        return Ok(());
    }
    print!(rt;
        "{clock} {end} {} {}",
        told.after.originating, told.after.terminating
    )?;
    if told.sends != Sends::Nothing {
        print!(rt; " {} {} {}", told.sends, told.bits, told.na)?;
    }
    if told.conditioning != Conditioning::Unchanged {
        print!(rt; " conditioning {}", told.conditioning)?;
    }
    println!(rt; "")
}

// The trunk is dead from 32 s on, until 71 s.
fn alive(clock: u64) -> bool {
    !(32000..71000).contains(&clock)
}

// What the far end is told of: the frame, written, carried and read; or, where none comes, that time has passed.
fn carried(clock: u64, told: Watched) -> Event {
    if told.sends == Sends::Nothing || !alive(clock) {
        return Event::Passing;
    }
    let mut frame = [0; 10];
    let hop = Hop {
        level: 0,
        from: 0,
        to: 7,
        address: 129,
    };
    match origin::signal(told.bits, told.na, hop, &mut frame) {
        Ok(_) => event_of(endpoint::signal(100, &frame)),
        Err(_) => Event::Passing,
    }
}

// What is read at the west: A set from 5 s on, B with it after a facility alarm that lasts from 104 s to 117 s.
fn read_at_west(clock: u64) -> Event {
    let bits = match clock {
        ..5000 => 0,
        ..104000 => 8,
        _ => 12,
    };
    Event::Reading {
        bits,
        alarm: (104000..117000).contains(&clock),
    }
}

// A refused event sends nothing and leaves the watch as it is.
fn told(w: Watch, clock: u64, event: Event) -> Watched {
    watch::tell(w, clock, event).unwrap_or(Watched {
        sends: Sends::Nothing,
        bits: 0,
        na: 0,
        conditioning: Conditioning::Unchanged,
        after: w,
    })
}

fn second(rt: &HostRuntime, line: Line, clock: u64) -> io::Result<Line> {
    let read = told(line.west, clock, read_at_west(clock));
    show(rt, clock, "west", line.west, read)?;
    let heard = told(line.east, clock, carried(clock, read));
    show(rt, clock, "east", line.east, heard)?;
    let answered = told(read.after, clock, carried(clock, heard));
    show(rt, clock, "west", read.after, answered)?;
    Ok(Line {
        west: answered.after,
        east: heard.after,
    })
}

fn main(rt: HostRuntime) -> io::Result<()> {
    let Ok(fresh) = watch::start(4, 10000, 25000, 0) else {
        return Ok(());
    };
    let mut line = Line {
        west: fresh,
        east: fresh,
    };
    for clock in (1000..=130000).step_by(1000) {
        line = second(&rt, line, clock)?;
    }
    Ok(())
}

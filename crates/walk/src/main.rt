// The program `walk` of document 01: reads records from standard input and writes a line for each.
#![tactic(auto)]

fn main(rt: HostRuntime) {
    walking::run(&mut rt.stdin(), &mut rt.stdout());
}

// The command program of document 01: one command a line on standard input, its answer on standard output.
// A program has a main of its own; stream::serve has the rest.
#![tactic(auto)]

fn main(rt: HostRuntime) {
    let mut piece = [0u8; 4096];
    stream::serve(&mut piece, rt.stdin(), rt.stdout());
}

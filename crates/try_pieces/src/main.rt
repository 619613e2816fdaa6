// A mixed input with lines of any length, read in pieces of 7 bytes.
// A program has a main of its own; stream::serve has the rest.
#![tactic(auto)]

fn main(rt: HostRuntime) {
    let mut piece = [0u8; 7];
    stream::serve(&mut piece, rt.stdin(), rt.stdout());
}

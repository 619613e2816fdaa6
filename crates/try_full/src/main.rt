// 511 keys and one more, on stored input.
// A program has a main of its own; stream::serve has the rest.
#![tactic(auto)]

fn main(rt: HostRuntime) {
    let mut piece = [0u8; 4096];
    stream::serve(&mut piece, rt.stdin(), rt.stdout());
}

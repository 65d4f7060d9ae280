// The listing of an input of 65,537 bytes: it is too long, and nothing else is told of it.
#![tactic(auto)]

// A program has one stored input and one stored output: each of the four inputs of a listing is a program.
fn main(rt: HostRuntime) {
    printing::list_input(&rt);
}

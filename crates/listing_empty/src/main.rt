// The listing of an input of 0 bytes, which stands for a file without string objects.
#![tactic(auto)]

// A program has one stored input and one stored output: each of the four inputs of a listing is a program.
fn main(rt: HostRuntime) {
    printing::list_input(&rt);
}

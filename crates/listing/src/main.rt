// Lists the metadata blob on standard input, of at most 65,536 bytes.
#![tactic(auto)]

// A program has one stored input and one stored output: each of the four inputs of a listing is a program.
fn main(rt: HostRuntime) {
    printing::list_input(&rt);
}

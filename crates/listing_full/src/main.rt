// The listing of an input of 65,536 bytes, which is not too long: its name heap fills the blob with zero bytes.
#![tactic(auto)]

// A program has one stored input and one stored output: each of the four inputs of a listing is a program.
fn main(rt: HostRuntime) {
    printing::list_input(&rt);
}

// The program `fuzzy`: a first line with now on standard input, then one phrase a line; a moment or a refusal a phrase on standard output.
#![tactic(auto)]

fn main(rt: HostRuntime) {
    console::run(&rt);
}

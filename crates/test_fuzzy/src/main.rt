// The loop of the program `fuzzy` on hard input: long lines, empty lines, every byte, lines that straddle the pieces that are read,
// no line feed at the end. data/expected.py writes the input and the output.
#![tactic(auto)]

fn main(rt: HostRuntime) {
    console::run(&rt);
}

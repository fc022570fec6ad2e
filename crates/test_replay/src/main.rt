// The first reading on the lines that were recorded of the built Rust.
#![tactic(auto)]

use lexer::reading::Reading;
use std::io;

fn main(rt: HostRuntime) -> io::Result<()> {
    test_lines::run(&rt, Reading::First)
}

// The second reading on the lines that `oracle/model.py --reading 2` answers.
#![tactic(auto)]

use lexer::reading::Reading;
use std::io;

fn main(rt: HostRuntime) -> io::Result<()> {
    test_lines::run(&rt, Reading::Second)
}

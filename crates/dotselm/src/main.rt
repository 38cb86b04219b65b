// Reads a table book, lays an age shift and a loading over it, goes round with its bytes, and says of promises whether
// they would be taken.
#![tactic(auto)]

use desk::{Task, run};
use std::io;
use std::process::ExitCode;

fn main(rt: HostRuntime) -> io::Result<ExitCode> {
    run(&rt, Task::Consider)
}

// Reads a table book, lays an age shift and a loading over it, goes round with its bytes, values promises, and keeps the
// stock of one employer for a week.
#![tactic(auto)]

use desk::{Task, run};
use std::io;
use std::process::ExitCode;

fn main(rt: HostRuntime) -> io::Result<ExitCode> {
    run(&rt, Task::Value)
}

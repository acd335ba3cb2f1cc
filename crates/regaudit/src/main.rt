//! The program `regaudit`: the command that its words ask for, over the machine's files, input and outputs.
#![tactic(auto)]

use command_parts::HostFiles;
use commands::{run, shows_colours, words_of};
use std::process::ExitCode;

fn main(rt: HostRuntime) -> ExitCode {
    let status = run(
        &rt,
        words_of(&rt),
        shows_colours(&rt, &rt.stdout()),
        &mut HostFiles::new(&rt),
        &mut rt.stdin(),
        &mut rt.stdout(),
        &mut rt.stderr(),
    );
    ExitCode::from(status)
}

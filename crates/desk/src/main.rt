//! The program `desk`: [`desk_host::call`] over the system that runs it.
#![tactic(auto)]

use desk_host::call;
use std::process::ExitCode;

fn main(rt: HostRuntime) -> ExitCode {
    call(&rt)
}

// Runs the cases of tools/other_cases.py.
#![tactic(auto)]

use std::io;

fn main(rt: HostRuntime) -> io::Result<()> {
    cases::replay::<294912, _, _, _>(
        &mut rt.stdin(),
        &mut rt.stdout(),
        other_replay::print_answers,
    )
}

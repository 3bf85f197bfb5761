// Runs the cases of tools/loads_cases.py.
#![tactic(auto)]

use std::io;

fn main(rt: HostRuntime) -> io::Result<()> {
    cases::replay::<196608, _, _, _>(
        &mut rt.stdin(),
        &mut rt.stdout(),
        seats_replay::print_answers,
    )
}

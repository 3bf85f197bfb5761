// Runs stored cases with the Rust's answers, which `compare/run answers` makes.
#![tactic(auto)]

use std::io;

fn main(rt: HostRuntime) -> io::Result<()> {
    cases::replay::<262144, _, _, _>(
        &mut rt.stdin(),
        &mut rt.stdout(),
        seats_replay::print_answers,
    )
}

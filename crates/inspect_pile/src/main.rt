// Reads a program's bytes from standard input, and prints the account of the pile that the arguments make of it, or the refusal.
#![tactic(auto)]

use account::inspect::inspect_pile;
use pile::arguments::read_steps;
use pile::step::Step;
use std::io::Read;
use std::{env, io};
use word_format::bytes::MAX_BYTES;

fn main(rt: HostRuntime) -> io::Result<()> {
    let heap = rt.alloc();
    let args: Vec<String> = env::args(&rt)?.skip(1).collect(heap)?;
    match read_steps(heap, &args) {
        Ok(steps) => print_account(&rt, &steps),
        Err(fault) => {
            eprintln!(rt; "inspect_pile: {fault}")?;
            Err(io::Error::from(io::ErrorKind::InvalidInput))
        }
    }
}

// The lines of `inspect`'s main again: a library's function needs a contract and an edit that breaks it, and of what is
// read and printed no contract speaks.
fn print_account(rt: &HostRuntime, steps: &[Step]) -> io::Result<()> {
    let heap = rt.alloc();
    let mut bytes = Vec::new(heap);
    rt.stdin()
        .take(MAX_BYTES as u64 + 1)
        .read_to_end(&mut bytes)?;
    match inspect_pile(heap, &bytes, steps) {
        Ok(text) => rt.print(&text),
        Err(refusal) => println!(rt; "{refusal}"),
    }
}

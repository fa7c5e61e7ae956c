// Reads a program's bytes from standard input, and prints its account or its refusal.
#![tactic(auto)]

use account::inspect::inspect;
use std::io;
use std::io::Read;
use word_format::bytes::MAX_BYTES;

fn main(rt: HostRuntime) -> io::Result<()> {
    let heap = rt.alloc();
    let mut bytes = Vec::new(heap);
    rt.stdin()
        .take(MAX_BYTES as u64 + 1)
        .read_to_end(&mut bytes)?;
    match inspect(heap, &bytes) {
        Ok(text) => rt.print(&text),
        Err(refusal) => println!(rt; "{refusal}"),
    }
}

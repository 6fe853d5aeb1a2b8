// Prints the 32-bit FNV-1a hashes of the strings that its authors, Fowler, Noll and Vo, publish with their values in their test suite, and of two long keys.
// `stdout` holds the published values; those of the long keys are from a separate program that follows the published rule with whole numbers and a remainder.
#![tactic(auto)]

use std::io;

// The published strings.
const STRINGS: [&str; 12] = [
    "", "a", "b", "c", "d", "e", "f", "fo", "foo", "foob", "fooba", "foobar",
];

// A line: what the key is called, and its hash as eight hexadecimal digits.
fn print_hash(rt: &impl Print, name: &str, key: &[u8]) -> io::Result<()> {
    let hash = find::hash(key);
    println!(rt; "{name}={hash:08x}")
}

fn main(rt: HostRuntime) -> io::Result<()> {
    // a string is called by itself
    for string in STRINGS {
        print_hash(&rt, string, string.as_bytes())?;
    }
    print_hash(&rt, "a x 4096", &[b'a'; 4_096])?;
    print_hash(&rt, "a x 4097", &[b'a'; 4_097])
}

// Serves each file that its arguments name, under a line with the file's name: farmtable's own library function over many inputs.
// `stdout` comes from the second implementation under tests/, never from this program.
#![tactic(auto)]

use std::env::{Env, FillError};
use std::fs::File;
use std::io;
use std::io::Write;

// Serves the file of a name; one that cannot be opened is named among the errors.
fn serve_file(rt: &HostRuntime, name: &str) -> io::Result<()> {
    match File::open(rt, name) {
        Ok(mut file) => {
            println!(rt; "== {name}")?;
            serving::serve(&mut file, &mut rt.stdout(), &mut rt.stderr());
            Ok(())
        }
        Err(why) => eprintln!(rt; "{name}: {why}"),
    }
}

// Serves the file that an argument names. The library opens no file whose name is not UTF-8.
fn serve_named(rt: &HostRuntime, name: &[u8]) -> io::Result<()> {
    match str::from_utf8(name) {
        Ok(text) => serve_file(rt, text),
        Err(_) => {
            rt.stderr().write_all(name)?;
            eprintln!(rt; ": the name is not UTF-8")
        }
    }
}

fn main(rt: HostRuntime) -> io::Result<()> {
    for i in 1..usize::MAX {
        let mut name = [0u8; 4096];
        match rt.arg(i, &mut name) {
            Ok(n) => serve_named(&rt, &name[..n])?,
            // no file has so long a name
            Err(FillError::TooLong) => serve_file(&rt, "")?,
            Err(FillError::NotPresent) => return Ok(()),
        }
    }
    Ok(())
}

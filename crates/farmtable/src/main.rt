// farmtable: serves standard input to standard output.
#![tactic(auto)]

fn main(rt: HostRuntime) {
    serving::serve(&mut rt.stdin(), &mut rt.stdout(), &mut rt.stderr());
}

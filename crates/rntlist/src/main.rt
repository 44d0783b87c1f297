// Lists the resolution notification section on standard input, as its arguments ask.
#![tactic(auto)]

use std::io;

fn main(rt: HostRuntime) -> io::Result<()> {
    let program = rnt_listing::program(rt.stderr());
    let options = listing::arguments::options(&rt, &program)?;
    rnt_listing::run(&rt, &program, options, &mut rt.stdin())
}

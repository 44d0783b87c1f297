// Lists the related content section on standard input, as its arguments ask.
#![tactic(auto)]

use std::io;

fn main(rt: HostRuntime) -> io::Result<()> {
    let program = rct_listing::program(rt.stderr());
    let options = listing::arguments::options(&rt, &program)?;
    rct_listing::run(&rt, &program, options, &mut rt.stdin())
}

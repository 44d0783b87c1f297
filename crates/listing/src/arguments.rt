// The options among the arguments that the program was started with.
ghost use Rattle.std.specs.Prelude.{◌≤◌, length, IfSome};

use crate::Program;
use crate::options::{Options, tell_word};
use std::env::FillError;
use std::io;
use std::rt::Env;

// The characters that an argument has room for: as many as any path has.
const LONGEST: usize = 4096;

// The length of an argument, or none behind the last one. One that is longer than any path has no letters here, and so is no
// option.
fn read_argument(rt: &impl Env, number: usize, word: &mut [u8]) -> Option<usize>
    ensures { IfSome result (λ n. n ≤ length word.new) }
{
    match rt.arg(number, word) {
        Ok(length) => Some(length),
        Err(FillError::TooLong) => Some(0),
        Err(FillError::NotPresent) => None,
    }
}

// With one argument more, or, where they are told, with a message if it is no option.
fn with_argument(
    program: &Program<impl Print>,
    options: Options,
    word: &[u8],
    are_told: bool,
) -> io::Result<Options> {
    if are_told {
        tell_word(program, word)?;
        return Ok(options);
    }
    Ok(options.with_word(word))
}

// Through all arguments; the one before the first is the program's name.
fn with_arguments(
    rt: &impl Env,
    program: &Program<impl Print>,
    options: Options,
    are_told: bool,
) -> io::Result<Options> {
    let mut all = options;
    for number in 1..usize::MAX {
        let mut word = [0u8; LONGEST];
        match read_argument(rt, number, &mut word) {
            Some(length) => all = with_argument(program, all, &word[..length], are_told)?,
            None => return Ok(all),
        }
    }
    Ok(all)
}

// What the arguments ask for. Which of them are wrong is told only when it is known that none of them asks for help.
pub fn options(rt: &impl Env, program: &Program<impl Print>) -> io::Result<Options> {
    let options = with_arguments(rt, program, Options::none(), false)?;
    if options.are_wrong() {
        return with_arguments(rt, program, options, true);
    }
    Ok(options)
}

// What the programs share: arguments, a file by name, and the streams. No contract can say what is read or written; what is
// chosen from it can be (crates cmd_usage and cmd_arguments).
#![tactic(auto)]

ghost use Rattle.std.specs.Prelude.{◌≤◌, length, IfOk, IfSome};
ghost use Rattle.io.specs.Counts.{IsPrefixLen};
ghost use Rattle.cmd_arguments.specs.Decimal.{Spelled};

use answers::{Answer, Refusal};
use cmd_usage::Program;
use std::env::{Env, FillError};
use std::fs::{Files, OpenOptions};
use std::io::{Error, Print, Read};

// The system's numbers of what it says of a name: so a failure that is found here has the system's words too.
const INVALID_ARGUMENT: i32 = 22;

const NAME_TOO_LONG: i32 = 36;

const NOT_TEXT: i32 = 84;

// ---- arguments

// Whether the program was started with other than k arguments, which it then tells.
pub fn misused(rt: &HostRuntime, program: Program, k: usize) -> bool {
    if cmd_arguments::are_arguments(argument_count(rt), k) {
        return false;
    }
    tell_usage(rt, program);
    true
}

// How many arguments there are, the program's own name among them.
fn argument_count(rt: &HostRuntime) -> usize {
    let mut text = io::buffer();
    for i in 0..usize::MAX {
        if let Err(FillError::NotPresent) = rt.arg(i, &mut text) {
            return i;
        }
    }
    usize::MAX
}

/// The number that argument k is, which must be the last one. Where there is none, that is told.
pub fn last_number(rt: &HostRuntime, program: Program, k: usize) -> Option<usize>
    ensures { Spelled result }
{
    if misused(rt, program, k) {
        return None;
    }
    let number = number_argument(rt, k);
    if number.is_none() {
        tell_usage(rt, program);
    }
    number
}

fn number_argument(rt: &HostRuntime, k: usize) -> Option<usize>
    ensures { Spelled result }
{
    let mut text = io::buffer();
    match rt.arg(k, &mut text) {
        Ok(n) => cmd_arguments::decimal(&text[..n]),
        Err(_) => None,
    }
}

fn tell_usage(rt: &HostRuntime, program: Program) {
    let _ = rt.stderr().write_all(program.usage());
}

// ---- what failed

// Tells it, with the system's own words for the error.
fn fail(rt: &HostRuntime, program: Program, what: &[u8], error: &Error)
    requires { length what.now ≤ 4096 }
{
    let mut subject = [0u8; 4106];
    let n = cmd_usage::put_subject(program, what, &mut subject);
    let _ = rt.stderr().write_all(&subject[..n]);
    let _ = rt.stderr().print(": ");
    let _ = rt.stderr().println(error);
}

// ---- what is read

// As much as buf holds, or until the input ends. By `while`: how far a turn goes, the reader says.
fn read_full<R: Read>(reader: &mut R, buf: &mut [u8]) -> Result<usize, Error>
    ensures { IfOk result (λ n. n ≤ length buf.new) }
{
    let mut done = 0;
    while done < buf.len() {
        let n = reader.read(&mut buf[done..])?;
        if n == 0 {
            break;
        }
        done += n;
    }
    Ok(done)
}

// As much as buf holds; a failure is told of the subject that `what` names.
fn read_from<R: Read>(
    rt: &HostRuntime,
    program: Program,
    what: &[u8],
    reader: &mut R,
    buf: &mut [u8],
) -> Option<usize>
    requires { length what.now ≤ 4096 }
    ensures { IfSome result (λ n. IsPrefixLen n buf.new) }
{
    match read_full(reader, buf) {
        Ok(n) => cmd_arguments::short_read(n, 0),
        Err(error) => {
            fail(rt, program, what, &error);
            cmd_arguments::short_read(0, -1)
        }
    }
}

/// As much of standard input as buf holds; none where it cannot be read, which is told.
pub fn read_input(rt: &HostRuntime, program: Program, buf: &mut [u8]) -> Option<usize>
    ensures { IfSome result (λ n. IsPrefixLen n buf.new) }
{
    read_from(rt, program, b"standard input", &mut rt.stdin(), buf)
}

/// The start of the file that argument k names, as much as buf holds; none where it cannot be read, which is told.
pub fn read_named(rt: &HostRuntime, program: Program, k: usize, buf: &mut [u8]) -> Option<usize>
    ensures { IfSome result (λ n. IsPrefixLen n buf.new) }
{
    let mut path = io::buffer();
    match rt.arg(k, &mut path) {
        Ok(p) => read_file(rt, program, &path[..p], buf),
        Err(error) => {
            let number = match error {
                FillError::TooLong => NAME_TOO_LONG,
                FillError::NotPresent => INVALID_ARGUMENT,
            };
            fail(rt, program, b"", &Error::from_raw_os_error(number));
            None
        }
    }
}

fn read_file(rt: &HostRuntime, program: Program, path: &[u8], buf: &mut [u8]) -> Option<usize>
    requires { length path.now ≤ 4096 }
    ensures { IfSome result (λ n. IsPrefixLen n buf.new) }
{
    match open(rt, path) {
        Ok(mut file) => read_from(rt, program, path, &mut file, buf),
        Err(error) => {
            fail(rt, program, path, &error);
            None
        }
    }
}

// A name that is no text cannot be opened.
fn open(rt: &HostRuntime, path: &[u8]) -> Result<std::fs::File, Error> {
    match str::from_utf8(path) {
        Ok(text) => std::fs::open(rt, text),
        Err(_) => Err(Error::from_raw_os_error(NOT_TEXT)),
    }
}

// ---- what is written

fn write_error(rt: &HostRuntime, answer: Answer) {
    let mut line = [0u8; 53];
    let n = cmd_arguments::error_text(answer, &mut line);
    let _ = rt.stderr().write_all(&line[..n]);
}

// All of it to standard output; where that does not take it, this is told.
pub fn write_output(rt: &HostRuntime, program: Program, made: &[u8]) {
    if let Err(error) = rt.stdout().write_all(made) {
        fail(rt, program, b"standard output", &error);
    }
}

/// What was made or the refusal, each to its stream.
pub fn finish(rt: &HostRuntime, program: Program, answer: Answer, made: &[u8]) {
    let n = cmd_arguments::output_length(answer, made.len());
    write_output(rt, program, &made[..n]);
    write_error(rt, answer);
}

// ---- mix and unmix

/// Moves the blocks on standard input, each of so many bytes, by the sheet. `blocks` is room for what is read.
pub fn move_blocks<F>(
    rt: &HostRuntime,
    program: Program,
    sheet: &[u8],
    width: usize,
    blocks: &mut [u8],
    moved: F,
)
where
    F: FnOnce(&[u8], usize, &mut [u8]) -> Result<usize, Refusal>,
    requires { F.IsAlwaysCallable moved }
{
    let Some(length) = read_input(rt, program, blocks) else {
        return;
    };
    let blocks = &mut blocks[..length];
    let answer = moved(sheet, width, blocks);
    finish(rt, program, answer.into(), blocks);
}

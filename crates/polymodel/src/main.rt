// Reads a sheet from standard input and writes its lines to standard output.
//
// All that it decides is in `text::print`, whose contract says which bytes these lines are for every input. A refused
// sheet is a line of output like any other. The program has no exit status of its own: it ends with 0 in every case.
// Where the input cannot be read nothing is written to standard output; that, and output that cannot be written, is
// said in a line on standard error.
#![tactic(auto)]

ghost use Rattle.std.specs.Prelude.{◌≤◌, length, IfOk};

use std::io;
use std::io::{Print, Read};
use std::rt::{Stderr, Stdin, Stdout};

// One byte more than the longest sheet has, so that a longer input shows as too long.
const MOST_INPUT: usize = format::LONGEST + 1;

// Fills the buffer from standard input: how many bytes came in before the input ended or the buffer was full. A pipe
// hands out its bytes in parts of any size, so it is asked until there are none.
fn read_input(mut input: Stdin, buffer: &mut [u8]) -> io::Result<usize>
    ensures { IfOk result (λ n. n ≤ length buffer.new) }
{
    let mut count = 0;
    // No range counts this loop: a read hands out any number of bytes.
    while count < buffer.len() {
        let more = input.read(&mut buffer[count..])?;
        if more == 0 {
            break;
        }
        count += more;
    }
    Ok(count)
}

// Writes the lines of a sheet.
fn answer(output: Stdout, errors: Stderr, sheet: &[u8]) {
    let mut lines = [0u8; text::MOST_TEXT];
    let length = text::print(sheet, &mut lines);
    if output.write_all(&lines[..length]).is_err() {
        let _ = errors.write_all(b"polymodel: the lines cannot be written\n");
    }
}

fn main(rt: HostRuntime) {
    let mut buffer = [0u8; MOST_INPUT];
    let errors = rt.stderr();
    let Ok(count) = read_input(rt.stdin(), &mut buffer) else {
        let _ = errors.write_all(b"polymodel: the sheet cannot be read\n");
        return;
    };
    answer(rt.stdout(), errors, &buffer[..count]);
}

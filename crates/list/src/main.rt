// Lists the container on standard input: which streams it holds. The library judges the file and makes the lines; this
// program prints them.
#![tactic(auto)]

use listing::{INPUT_LIMIT, ListRefusal, Place};

// The numbers of standard input and output. A read that fails ends the input, as `io::read_full` has it; std's `Read`
// would give an error, for which this program has no line.
const STDIN_FILENO: i32 = 0;

const STDOUT_FILENO: i32 = 1;

fn main() {
    let mut input = [0; INPUT_LIMIT];
    let mut out = [0; 65536];
    let n = io::read_full(STDIN_FILENO, &mut input);
    let mut more = [0; 1];
    if io::read_full(STDIN_FILENO, &mut more) == 0 {
        print_listing(&input[..n], &mut out);
    } else {
        print_refusal(ListRefusal::OverLimit(INPUT_LIMIT as u32), &mut out);
    }
}

// Prints part after part. A proved loop has to end, so this one counts its turns. Each turn prints at least one line,
// and no listing has so many.
fn print_listing(file: &[u8], out: &mut [u8]) {
    let mut from = Place::Head;
    for _ in 0..u64::MAX {
        if from == Place::End {
            break;
        }
        from = print_part(file, from, out);
    }
}

// Prints the lines from a place on, as many as `out` holds, and returns the place after them: the end if no line is
// left, if the file is refused, or if writing fails.
fn print_part(file: &[u8], from: Place, out: &mut [u8]) -> Place {
    match listing::list(file, from, out) {
        Ok(part) => {
            if io::write_all(STDOUT_FILENO, &out[..part.bytes]) {
                part.next
            } else {
                Place::End
            }
        }
        Err(why) => {
            print_refusal(why, out);
            Place::End
        }
    }
}

fn print_refusal(why: ListRefusal, out: &mut [u8]) {
    let n = listing::list_refusal(why, out);
    io::write_all(STDOUT_FILENO, &out[..n]);
}

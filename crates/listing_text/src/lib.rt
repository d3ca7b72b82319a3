// The bytes of the listing's lines, put one after another into a lent text, for the crates of the listing. Each
// function starts at a place and returns the place after what it put. The caller guarantees room for the longest.
#![tactic(auto)]

ghost use Rattle.std.specs.Prelude.{◌+◌, ◌≤◌, length};
ghost use Rattle.store.specs.Putting.{Putting};
ghost use Rattle.listing_text.specs.Text.{decimal, head_text, stream_text, size_text, absent_text, refusal_text};

use itoa::Buffer;
use store::put;

/// No line is longer: three numbers of up to 20 digits, a word, blanks, and the line's end.
pub const LONGEST: usize = 80;

/// The head, `streams N`.
pub fn write_head(text: &mut [u8], count: u32) -> usize
    requires { 80 ≤ length text.old }
    ensures { Putting (head_text count) text.old 0 text.new result }
{
    let word = put(text, 0, b"streams ");
    let number = put_number(text, word, u64::from(count));
    put(text, number, b"\n")
}

/// A stream's number, and a blank.
pub fn write_stream(text: &mut [u8], stream: u32) -> usize
    requires { 80 ≤ length text.old }
    ensures putting { Putting (stream_text stream) text.old 0 text.new result }
    ensures upper_bound { result ≤ 21 }
{
    let number = put_number(text, 0, u64::from(stream));
    put(text, number, b" ")
}

/// What is shown of a present stream: its size and slices.
pub fn write_size(text: &mut [u8], at: usize, size: u32, slices: usize) -> usize
    requires { at + 42 ≤ length text.old }
    ensures { Putting (size_text size slices) text.old at text.new result }
{
    put_numbers(text, at, u64::from(size), slices as u64)
}

/// What is shown of an absent stream: the word, since `0 0` is a present one of size 0.
pub fn write_absent(text: &mut [u8], at: usize) -> usize
    requires { at + 7 ≤ length text.old }
    ensures { Putting absent_text text.old at text.new result }
{
    put(text, at, b"absent\n")
}

/// `refused C V`, of a stream or of the whole file.
pub fn write_refusal(text: &mut [u8], at: usize, number: u32, value: u64) -> usize
    requires { at + 50 ≤ length text.old }
    ensures { Putting (refusal_text (record { number = number; value = value }))
        text.old at text.new result }
{
    let word = put(text, at, b"refused ");
    put_numbers(text, word, u64::from(number), value)
}

// Two numbers with a blank between them, and the line's end.
fn put_numbers(text: &mut [u8], at: usize, first: u64, second: u64) -> usize
    requires { at + 42 ≤ length text.old }
    ensures { Putting (size_text first second) text.old at text.new result }
{
    let number = put_number(text, at, first);
    let blank = put(text, number, b" ");
    let end = put_number(text, blank, second);
    put(text, end, b"\n")
}

// A number of 64 bits has at most 20 digits.
fn put_number(text: &mut [u8], at: usize, n: u64) -> usize
    requires { at + 20 ≤ length text.old }
    ensures putting { Putting (decimal n) text.old at text.new result }
    ensures upper_bound { result ≤ at + 20 }
{
    let mut digits = Buffer::new();
    put(text, at, digits.format(n).as_bytes())
}

// Runs the vectors of standard input through the calls and prints what each gives.
// A line is a comment, from `#` on, which is printed as it is, or a letter and then bytes in hexadecimal, with capital letters; spaces are skipped:
//   F  a file: its report
//   R  a single record: read, written again into a buffer that is long enough, and shown in hexadecimal
//   S  the same with a buffer one byte shorter than the record
//   P  a file: its pages, or the line of its refusal
//   T  two bytes, a count with the high byte first, then one record: the pages of a file of that many such records, as far as the buffer holds them
//   M  a record, then months of the rain sampler, those left out being dry: the pair of the year and its judgement at the record's site, or the line of its refusal
//   H  a record: the hydrogen level of its site and how many levels were compared, or the line of its refusal
//   C  an outer tag, then a file: the file converted to records of that tag, in hexadecimal, or the line of its refusal
//   L  a list of species, which is lent to the vectors after it; to those before the first, an empty one is
#![tactic(auto)]

mod hexadecimal;
mod vectors;

use crate::hexadecimal::decode;
use crate::vectors::{
    Stop, print_converted, print_level, print_months, print_pages, print_repeated, print_report,
    print_rewritten,
};
use arrayvec::ArrayVec;
use site::{Refusal, SpeciesList};
use std::io::{self, Read};

// The letter picks the call: a table of functions would be no plainer. The list's check comes first, but for the tag that a file is converted to, as in the calls for C.
fn print_vector(
    rt: &impl Print,
    kind: u8,
    bytes: &ArrayVec<u8, 2048>,
    list: &[u8],
) -> Result<(), Stop> {
    if kind == b'C' {
        return print_converted(rt, bytes, list);
    }
    let mut out = [0u8; 2048];
    let list = SpeciesList::checked(list)?;
    match kind {
        b'F' => print_report(rt, bytes, list),
        b'H' => print_level(rt, bytes, list),
        b'M' => print_months(rt, bytes, list),
        b'P' => print_pages(rt, bytes, list),
        b'R' => print_rewritten(rt, bytes, list, &mut out),
        b'S' if !bytes.is_empty() => print_rewritten(rt, bytes, list, &mut out[..bytes.len() - 1]),
        b'T' => print_repeated(rt, bytes, list),
        _ => Ok(()),
    }
}

fn print_refusal(rt: &impl Print, refusal: Refusal) -> io::Result<()> {
    println!(rt; "refused {} at {}", u64::from(refusal.rule), refusal.at)
}

fn print_line(rt: &impl Print, line: &[u8], list: &mut ArrayVec<u8, 2048>) -> io::Result<()> {
    match line {
        [] => Ok(()),
        [b'#', ..] => {
            rt.write_all(line)?;
            println!(rt)
        }
        [b'L', digits @ ..] => {
            *list = decode(digits);
            Ok(())
        }
        [kind, digits @ ..] => match print_vector(rt, *kind, &decode(digits), list) {
            Ok(()) => Ok(()),
            Err(Stop::Refused(refusal)) => print_refusal(rt, refusal),
            Err(Stop::Failed(error)) => Err(error),
        },
    }
}

// What stands in the input past the room is left out.
fn main(rt: HostRuntime) -> io::Result<()> {
    let mut text = ArrayVec::<u8, 131072>::new();
    io::copy(&mut rt.stdin().take(131072), &mut text)?;
    let mut list = ArrayVec::new();
    for line in text.split(|b| *b == b'\n') {
        print_line(&rt, line, &mut list)?;
    }
    Ok(())
}

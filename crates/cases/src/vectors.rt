// What is printed for the bytes of a vector, by its letter.
use arrayvec::ArrayVec;
use convert::{Target, convert};
use judgement::Verdict;
use level::level_at;
use listing::report;
use loads::Searched;
use numbers::word_at;
use pages::list_pages;
use readings::months_in;
use record::{read_record, write_record};
use sampler::{Sampled, judge_months};
use site::{Refusal, SpeciesList};
use std::io::{self, Write};

// What ends a vector: a call's refusal, or a write that failed.
pub enum Stop {
    Refused(Refusal),
    Failed(io::Error),
}

impl From<Refusal> for Stop {
    fn from(refusal: Refusal) -> Stop {
        Stop::Refused(refusal)
    }
}

impl From<io::Error> for Stop {
    fn from(error: io::Error) -> Stop {
        Stop::Failed(error)
    }
}

// What a call writes; the buffer has room for the pages of 500 records. Nothing is asked of the closure's count, so it is cut to the buffer.
fn print_written<W: FnOnce(&mut [u8]) -> Result<usize, Refusal>>(
    rt: &impl Print,
    write: W,
) -> Result<(), Stop>
    requires { W.IsAlwaysCallable write }
{
    let mut out = [0u8; 33085];
    let n = write(&mut out)?;
    rt.write_all(&out[..n.min(out.len())])?;
    Ok(())
}

pub fn print_report(rt: &impl Print, file: &[u8], list: SpeciesList<'_>) -> Result<(), Stop> {
    print_written(rt, |out| report(file, list, out))
}

pub fn print_pages(rt: &impl Print, file: &[u8], list: SpeciesList<'_>) -> Result<(), Stop> {
    print_written(rt, |out| list_pages(file, list, out))
}

// The record count times over, as far as there is room: for 501 records of 78 bytes, one more than a file may have.
fn repeat(record: &[u8], count: u16) -> io::Result<ArrayVec<u8, 39078>> {
    let mut file = ArrayVec::new();
    for _ in 0..count {
        file.write(record)?;
    }
    Ok(file)
}

pub fn print_repeated(rt: &impl Print, bytes: &[u8], list: SpeciesList<'_>) -> Result<(), Stop> {
    match bytes {
        [high, low, record @ ..] if !record.is_empty() => {
            let file = repeat(record, u16::from_be_bytes([*high, *low]))?;
            print_pages(rt, &file, list)
        }
        _ => Ok(()),
    }
}

fn print_hexadecimal(rt: &impl Print, bytes: &[u8]) -> io::Result<()> {
    for b in bytes {
        print!(rt; "{b:02X}")?;
    }
    println!(rt)
}

// A record read, and written again into a lent buffer.
#[tactic(auto, unfolding(site::specs::Refusal::unless, output::specs::Output::held_after))]
pub fn print_rewritten(
    rt: &impl Print,
    record: &[u8],
    list: SpeciesList<'_>,
    out: &mut [u8],
) -> Result<(), Stop> {
    let site = read_record(record, list)?;
    let n = write_record(site, list, out)?;
    Ok(print_hexadecimal(rt, &out[..n])?)
}

// A file moved to the kind of the first byte. Cutting the count to the buffer spares a proof that it fits.
pub fn print_converted(rt: &impl Print, bytes: &[u8], list: &[u8]) -> Result<(), Stop> {
    let [target, file @ ..] = bytes else {
        return Ok(());
    };
    let target = Target::try_from(*target).map_err(Refusal::from)?;
    let mut out = [0u8; 2048];
    let n = convert(file, SpeciesList::checked(list)?, target, &mut out)?;
    Ok(print_hexadecimal(rt, &out[..n.min(out.len())])?)
}

fn print_verdict(rt: &impl Print, verdict: Verdict) -> io::Result<()> {
    match verdict {
        Verdict::Within => println!(rt; "0 0 0 within"),
        Verdict::Over {
            region,
            acid,
            nutrient,
        } => println!(rt; "{} {acid} {nutrient} over", u64::from(region)),
    }
}

// The record is as long as it states.
pub fn print_months(rt: &impl Print, bytes: &[u8], list: SpeciesList<'_>) -> Result<(), Stop> {
    let end = 3 + usize::from(word_at(bytes, 1));
    let Some((record, months)) = bytes.split_at_checked(end) else {
        return Ok(());
    };
    let site = read_record(record, list)?;
    let Sampled { pair, judged } = judge_months(site, list, months_in(months))?;
    let l = judged.loads;
    print!(rt; "{} {} ", pair.sulphur, pair.nitrogen)?;
    print!(rt; "{} {} {} {} ", l.max_s, l.min_n, l.max_n, l.nut_n)?;
    print_verdict(rt, judged.verdict)?;
    Ok(())
}

pub fn print_level(rt: &impl Print, record: &[u8], list: SpeciesList<'_>) -> Result<(), Stop> {
    let site = read_record(record, list)?;
    let Searched { level, compared } = level_at(site, list).map_err(Refusal::from)?;
    println!(rt; "{level} {compared} compared")?;
    Ok(())
}

//! The report program: an image on standard input, its listing on standard output, as document 01's "Printed listing" has it, under edition 2.
//! It asks the linter once and only spells what it answers.
#![tactic(auto)]

ghost use Rattle.std.specs.Prelude.{◌≡◌, ◌≤◌, length, take, IfOk, IfSome};

use findings::{Finding, Findings, Severity};
use pieces::LONGEST;
use printing::{refused, text};
use reading::Refusal;
use rules::Edition;
use std::io;
use std::io::Read;

// How a decoder's line goes on behind its name.
fn decoded<T: Drop>(rt: &impl Print, answer: Result<T, Refusal>) -> io::Result<()> {
    match answer {
        Ok(_) => text(rt, b" ok\n"),
        Err(why) => {
            refused(rt, why)?;
            text(rt, b"\n")
        }
    }
}

// The report table's row of a code: its name, and how many numbers it lists.
fn row(code: u8) -> (&'static str, usize) {
    match code {
        1 => ("non-integer-device-count", 2),
        2 => ("trc-identity-mismatch", 3),
        3 => ("timing-ordering-violation", 2),
        4 => ("non-integer-cas-latency", 2),
        5 => ("cas-latency-not-supported", 1),
        6 => ("non-integer-clock-timing", 2),
        7 => ("non-standard-data-rate", 1),
        8 => ("reserved-bytes-nonzero", 2),
        _ => ("package-die-count-mismatch", 1),
    }
}

fn severity(s: Severity) -> &'static str {
    match s {
        Severity::Error => "error",
        Severity::Warning => "warning",
        Severity::Info => "info",
    }
}

// Name, severity, sub if not 0, listed numbers.
fn line(rt: &impl Print, f: Finding) -> io::Result<()> {
    let (name, listed) = row(f.code);
    print!(rt; "{name} {}", severity(f.severity))?;
    if f.sub != 0 {
        print!(rt; " {}", f.sub)?;
    }
    for n in [f.first, f.second, f.third].iter().take(listed) {
        print!(rt; " {n}")?;
    }
    text(rt, b"\n")
}

fn lines(rt: &impl Print, found: &Findings) -> io::Result<()> {
    for one in found.items.iter().take(found.count) {
        line(rt, *one)?;
    }
    Ok(())
}

// Reads until the buffer is full or the input ends: how many bytes.
// Kept: a rule of the project (no heap): std's call that reads to the end and tells how much it was wants a Vec, so this loops over `read`.
fn read_full<R: Read>(input: &mut R, buffer: &mut [u8]) -> io::Result<usize>
    ensures bound { IfOk result (λ n. n ≤ length buffer.new) }
    ensures bytes { IfOk result (λ n. IfSome (R.remaining input.old) (λ bytes. take n buffer.new ≡ take (length buffer.old) bytes)) }
{
    let mut got = 0;
    while got < buffer.len() {
        let n = input.read(&mut buffer[got..])?;
        if n == 0 {
            break;
        }
        got += n;
    }
    Ok(got)
}

fn main(rt: HostRuntime) -> io::Result<()> {
    let mut buffer = [0u8; LONGEST + 1];
    let got = read_full(&mut rt.reader(), &mut buffer)?;
    if LONGEST < got {
        return println!(rt; "refused {}", Refusal::TooLong);
    }
    let linted = rules::lint_image(&buffer[..got], Edition::Second);
    println!(rt; "bytes {got}")?;
    text(&rt, b"identity")?;
    decoded(&rt, linted.identity)?;
    text(&rt, b"timings")?;
    decoded(&rt, linted.timings)?;
    lines(&rt, &linted.findings)?;
    println!(rt; "findings {}", linted.findings.count)
}

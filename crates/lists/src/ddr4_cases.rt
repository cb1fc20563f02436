//! DDR4 images: linted into lent lists as in `main`, and their records by value.
ghost use Rattle.std.specs.Prelude.{◌≡◌, ◌<◌, ◌≤◌, ◌++◌, take, drop};
ghost use Rattle.reading.specs.Lent.{listed};
ghost use Rattle.ddr4rules.specs.Lint.{ddr4_answer_of, ddr4_findings_of};

use crate::{After, Answered, Lent, lend, places, show, told};
use ddr4rules::Ddr4Records;
use printing::{refused, text};
use std::io;

impl Answered for Ddr4Records {
    fn tell(&self, rt: &impl Print) -> io::Result<()> {
        print!(rt; " count {}", self.count)
    }
}

fn ddr4_into(image: &[u8], lent: Lent) -> After<Ddr4Records>
    ensures answer { result.answer ≡ ddr4_answer_of image.now (take lent.len lent.list) }
    ensures later { result.list ≡ listed 15 (ddr4_findings_of image.now) (take lent.len lent.list) ++ drop lent.len lent.list }
{
    lend(lent, |list| ddr4rules::lint_ddr4(image, list))
}

fn lint_case(rt: &impl Print, label: &[u8], image: &[u8], len: usize) -> io::Result<()> {
    places(rt, label, len)?;
    let found = ddr4rules::lint_ddr4_image(image).findings;
    told(rt, ddr4_into(image, Lent::marked(len)), found)
}

// An image without findings. No two of its times are the same, byte 27 has the halves 2 and 1, and bits beside the codes are set, so that
// a byte or a bit read at a wrong place shows.
fn sound() -> [u8; 128] {
    let mut image = [0; 128];
    // The device type, and the codes.
    for (at, byte) in [(2, 0x0C), (4, 0x85), (12, 0x09), (13, 0x0B), (17, 0x30)] {
        image[at] = byte;
    }
    // The times in units.
    for (at, byte) in [
        (18, 7),
        (24, 110),
        (25, 111),
        (26, 112),
        (27, 0x21),
        (28, 5),
        (29, 113),
    ] {
        image[at] = byte;
    }
    // The fine bytes.
    for (at, byte) in [(120, 0x9C), (121, 2), (122, 0xFF), (123, 1), (125, 0xD6)] {
        image[at] = byte;
    }
    image
}

// With all three findings: bus 8 and I/O 16, tRAS 12625 below tRCD, and tRC 12624.
fn broken() -> [u8; 128] {
    let mut image = sound();
    for (at, byte) in [
        (12, 0x0A),
        (13, 0x08),
        (27, 0),
        (28, 101),
        (29, 101),
        (120, 0xFF),
    ] {
        image[at] = byte;
    }
    image
}

// Just without: bus and I/O are 16, and tRCD, tRAS and tRC are 12625.
fn level() -> [u8; 128] {
    let mut image = broken();
    for (at, byte) in [(13, 0x09), (25, 101), (120, 0), (122, 0)] {
        image[at] = byte;
    }
    image
}

// The same width code, units and fine byte wherever there is one, and the two halves of byte 27.
fn uniform(density: u8, width: u8, units: u8, halves: u8, fine: u8) -> [u8; 128] {
    let mut image = [units; 128];
    for (at, byte) in [
        (2, 0x0C),
        (4, density),
        (12, width),
        (13, width),
        (17, 0),
        (27, halves),
    ] {
        image[at] = byte;
    }
    for at in [120, 121, 122, 123, 125] {
        image[at] = fine;
    }
    image
}

fn linting(rt: &impl Print, image: &[u8; 128]) -> io::Result<()> {
    for len in [0, 14, 15, 17] {
        lint_case(rt, b"ddr4 lint,", image, len)?;
    }
    let after = ddr4_into(image, Lent::marked(15));
    show(rt, &after.list, 3)?;
    lint_case(rt, b"ddr4 lint of 126 bytes,", &image[0..126], 15)?;
    lint_case(rt, b"ddr4 lint of 124 bytes,", &image[0..124], 14)?;
    lint_case(rt, b"ddr4 lint of 124 bytes,", &image[0..124], 15)?;
    lint_case(rt, b"ddr4 lint of no bytes,", &[], 17)
}

// An image that would have all three findings, refused for one code.
fn code_case(rt: &impl Print, label: &[u8], at: usize, byte: u8) -> io::Result<()>
    requires { at < 128 }
{
    let mut image = broken();
    image[at] = byte;
    lint_case(rt, label, &image, 15)
}

// The same for a time of -1 ps: no units, and a fine byte of -1.
fn time_case(rt: &impl Print, label: &[u8], units: usize, fine: usize) -> io::Result<()>
    requires units { units < 128 }
    requires fine { fine < 128 }
{
    let mut image = broken();
    image[units] = 0;
    image[fine] = 0xFF;
    lint_case(rt, label, &image, 15)
}

fn refusing(rt: &impl Print) -> io::Result<()> {
    code_case(rt, b"ddr4 lint of timebase 1,", 17, 1)?;
    code_case(rt, b"ddr4 lint of density code 8,", 4, 8)?;
    code_case(rt, b"ddr4 lint of I/O code 4,", 12, 4)?;
    code_case(rt, b"ddr4 lint of bus code 4,", 13, 4)?;
    time_case(rt, b"ddr4 lint of tCK below zero,", 18, 125)?;
    time_case(rt, b"ddr4 lint of tAA below zero,", 24, 123)?;
    time_case(rt, b"ddr4 lint of tRCD below zero,", 25, 122)?;
    time_case(rt, b"ddr4 lint of tRP below zero,", 26, 121)?;
    time_case(rt, b"ddr4 lint of tRC below zero,", 29, 120)
}

fn record_case(rt: &impl Print, label: &[u8], image: &[u8; 128]) -> io::Result<()> {
    text(rt, label)?;
    match ddr4::decode_ddr4(image) {
        Ok(d) => print!(rt;
            " Mb {} I/O {} bus {} tCK {} tAA {} tRCD {} tRP {} tRAS {} tRC {}",
            d.megabits,
            d.io_width_bits,
            d.bus_width_bits,
            d.tck,
            d.taa,
            d.trcd,
            d.trp,
            d.tras,
            d.trc
        )?,
        Err(why) => refused(rt, why)?,
    }
    text(rt, b"\n")
}

// The megabits of every density code.
fn densities(rt: &impl Print) -> io::Result<()> {
    text(rt, b"decode_ddr4, density codes 0 to 7:")?;
    for code in 0..8 {
        let mut image = sound();
        image[4] = code;
        match ddr4::decode_ddr4(&image) {
            Ok(d) => print!(rt; " {}", d.megabits)?,
            Err(why) => refused(rt, why)?,
        }
    }
    text(rt, b"\n")
}

fn decoding(rt: &impl Print) -> io::Result<()> {
    record_case(rt, b"decode_ddr4, halves 2 and 1:", &sound())?;
    record_case(rt, b"decode_ddr4, equal times:", &level())?;
    let largest = uniform(7, 3, 255, 0xFF, 127);
    record_case(rt, b"decode_ddr4, largest:", &largest)?;
    let high = uniform(7, 3, 255, 0xF0, 127);
    record_case(rt, b"decode_ddr4, high half 15:", &high)?;
    let low = uniform(7, 3, 255, 0x0F, 127);
    record_case(rt, b"decode_ddr4, low half 15:", &low)?;
    let negative = uniform(0, 2, 2, 0, 0x80);
    record_case(rt, b"decode_ddr4, fine bytes -128:", &negative)?;
    record_case(rt, b"decode_ddr4, least:", &uniform(0, 0, 0, 0, 0))?;
    densities(rt)
}

pub(crate) fn run(rt: &impl Print, ddr5: &[u8; 512]) -> io::Result<()> {
    linting(rt, &broken())?;
    lint_case(rt, b"ddr4 lint of a sound image,", &sound(), 15)?;
    lint_case(rt, b"ddr4 lint of equal times,", &level(), 17)?;
    lint_case(rt, b"ddr4 lint of a DDR5 image,", ddr5, 14)?;
    lint_case(rt, b"ddr4 lint of a DDR5 image,", ddr5, 15)?;
    refusing(rt)?;
    decoding(rt)
}

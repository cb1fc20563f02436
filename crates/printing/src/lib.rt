//! What the programs write to standard output. Nothing is promised of it, since no clause can say which bytes reach the system.
#![tactic(auto)]

use reading::Refusal;
use std::io;

pub fn text(rt: &impl Print, s: &[u8]) -> io::Result<()> {
    rt.write_all(s)
}

pub fn decimal(rt: &impl Print, n: usize) -> io::Result<()> {
    rt.print(n)
}

/// A space and a number in decimal.
pub fn number(rt: &impl Print, n: usize) -> io::Result<()> {
    print!(rt; " {n}")
}

/// A refusal's number and the values that it carries.
pub fn refused(rt: &impl Print, why: Refusal) -> io::Result<()> {
    print!(rt; " refused {why}")
}

pub fn yes(rt: &impl Print, so: bool) -> io::Result<()> {
    text(rt, if so { b" yes" } else { b" no" })
}

#![tactic(auto)]
// Drives many votes over channels, collision detectors and contention managers, chosen by a table on standard input,
// and prints the listing of each after its number. What it prints is held to what the second model says of the table.
mod course;
mod equipment;
mod everyone;
mod fields;
mod one_of;
mod plan;
mod printer;

use course::{Course, follow};
use fields::{Fields, numbers_of};
use listings::lines::write_refusal;
use listings::text::{write_heads, write_rounds};
use plan::Plans;
use printer::Printer;
use std::io;
use std::io::{BufWriter, Read, Stdout, Write};

// Prints the listing of a course; there is no byte in the line of its refusal.
fn print_course(out: &mut BufWriter<Stdout>, course: &Course) -> io::Result<()> {
    let mut printer = Printer { out };
    write_rounds(&mut printer, course.rounds.as_slice())?;
    match &course.ending {
        Err(refusal) => write_refusal(&mut printer, None, *refusal),
        Ok(heads) => write_heads(&mut printer, heads.as_slice()),
    }
}

fn read_table(rt: &HostRuntime) -> anyhow::Result<Vec<u64>> {
    let text = io::read_to_string(rt.alloc(), rt.stdin())?;
    numbers_of(rt.alloc(), text.as_str())
}

// Drives each vote of the table, and prints its listing.
fn drive_all(rt: &HostRuntime, numbers: &[u64]) -> anyhow::Result<()> {
    let plans = Plans {
        left: Fields::new(numbers),
    };
    let mut out = BufWriter::new(rt.alloc(), rt.stdout())?;
    for (k, plan) in (1..u32::MAX).zip(plans) {
        writeln!(out, "V {k}")?;
        let course = follow(rt.alloc(), &plan?)?;
        print_course(&mut out, &course)?;
    }
    Ok(out.flush()?)
}

fn run(rt: &HostRuntime) -> anyhow::Result<()> {
    let numbers = read_table(rt)?;
    drive_all(rt, numbers.as_slice())
}

fn main(rt: HostRuntime) -> anyhow::Result<()> {
    run(&rt)
}

// walkthrough: takes a table from standard input through the library's calls one by one, and prints
// what each did, up to the plan or the first refusal.
#![tactic(auto)]

use columns::Form;
use duty::{Header, Record};
use fault::Fault;
use placing::{Lined, place};
use std::io::{Read, Write};
use std::{fmt, io};
use thiserror::Error;

// Why a walkthrough ends early.
#[derive(Debug, Drop, Error)]
enum Stop {
    #[error("{0}")]
    Refused(#[from] Fault),
    #[error(transparent)]
    Failed(#[from] io::Error),
}

// Prints as the name without its blanks, which only follow it, and the board.
#[derive(Drop)]
struct Placed<'a>(&'a Record);

impl fmt::Display for Placed<'_> {
    fn fmt<W: fmt::Write>(&self, f: &mut fmt::Formatter<W>) -> fmt::Result {
        for byte in self.0.name.bytes {
            if byte != b' ' {
                f.write_char(byte as char)?;
            }
        }
        let board = self.0.board;
        write!(f, " on board {board}")
    }
}

// Reads the table, and tells its size.
fn read(rt: &HostRuntime, text: &[u8], records: &mut [Record]) -> Result<Header, Stop> {
    let header = reader::read(Form::Table, text, records)?;
    println!(rt;
        "read {} duties for {} boards, cycle {}",
        header.duties(),
        header.boards(),
        header.cycle()
    )?;
    Ok(header)
}

// Places the duties under the header's gauge, and tells the board of each.
fn place_all(rt: &HostRuntime, header: &Header, records: &mut [Record]) -> Result<(), Stop> {
    place(
        &header.letter(),
        header,
        records,
        &mut [Lined::UNUSED; Header::MOST_RECORDS],
    )?;
    for record in records.iter().take(header.duties() as usize) {
        rt.println(Placed(record))?;
    }
    Ok(())
}

// Writes the plan, and tells its length and its text.
fn write(
    rt: &HostRuntime,
    header: &Header,
    records: &[Record],
    out: &mut [u8],
) -> Result<(), Stop> {
    let length = writer::write(Form::Plan, header, records, out)?;
    println!(rt; "wrote {length} bytes")?;
    rt.stdout().write_all(&out[0..length])?;
    Ok(())
}

fn walk(rt: &HostRuntime, text: &[u8], out: &mut [u8]) -> Result<(), Stop> {
    let mut records = [Record::BLANK; Header::MOST_RECORDS];
    let header = read(rt, text, &mut records)?;
    place_all(rt, &header, &mut records)?;
    write(rt, &header, &records, out)
}

// One byte more than the longest table is all that can decide.
fn run(rt: &HostRuntime) -> anyhow::Result<()> {
    let heap = rt.alloc();
    let mut text = Vec::new(heap);
    rt.stdin()
        .take(Form::Table.longest_text() as u64 + 1)
        .read_to_end(&mut text)?;
    let mut out = vec![in heap; 0u8; Form::Plan.longest_text()]?;
    match walk(rt, text.as_slice(), out.as_mut_slice()) {
        Ok(()) => Ok(()),
        Err(Stop::Refused(fault)) => Ok(rt.println(fault)?),
        Err(Stop::Failed(error)) => Err(error.into()),
    }
}

fn main(rt: HostRuntime) -> anyhow::Result<()> {
    run(&rt)
}

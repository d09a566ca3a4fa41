// Cases with the answers of an outside implementation, read from one line of text each.
use anyhow::{Context, anyhow};
use duty::{Letter, Record, Timing};
use std::alloc::Global;
use std::fmt;
use std::str::FromStr;

// What the three gauges say to a list.
#[derive(Clone, Copy, PartialEq, Eq)]
pub struct Verdicts {
    pub density: bool,
    pub slope: bool,
    pub exact: bool,
}

// A list and a cycle, and what the outside says of them.
#[derive(Drop)]
pub struct GaugeCase {
    pub verdicts: Verdicts,
    pub cycle: u32,
    pub duties: Vec<Timing>,
}

// A table, with the boards that the outside gives its duties, and the index of the duty that fits none.
#[derive(Drop)]
pub struct PlacingCase {
    pub letter: Letter,
    pub boards: u8,
    pub cycle: u32,
    pub stuck: Option<u32>,
    pub records: Vec<Record>,
}

#[derive(Drop)]
pub enum Case {
    Remark,
    Gauges(GaugeCase),
    Placing(PlacingCase),
}

fn mark(verdict: bool) -> char {
    if verdict { 'y' } else { 'n' }
}

impl fmt::Display for Verdicts {
    fn fmt<W: fmt::Write>(&self, f: &mut fmt::Formatter<W>) -> fmt::Result {
        let density = mark(self.density);
        let slope = mark(self.slope);
        let exact = mark(self.exact);
        write!(f, "{density}{slope}{exact}")
    }
}

fn read_verdict(mark: u8) -> anyhow::Result<bool> {
    match mark {
        b'y' => Ok(true),
        b'n' => Ok(false),
        _ => Err(anyhow!("a verdict is y or n")),
    }
}

impl FromStr for Verdicts {
    type Err = anyhow::Error;

    fn from_str(word: &str) -> anyhow::Result<Verdicts> {
        let [density, slope, exact] = word.as_bytes() else {
            return Err(anyhow!("three verdicts are due"));
        };
        Ok(Verdicts {
            density: read_verdict(*density)?,
            slope: read_verdict(*slope)?,
            exact: read_verdict(*exact)?,
        })
    }
}

fn read_letter(word: &str) -> anyhow::Result<Letter> {
    let letter = match word.as_bytes() {
        [byte] => Letter::try_from(*byte).ok(),
        _ => None,
    };
    letter.context("a gauge is D, S or E")
}

fn read_number(word: &str) -> anyhow::Result<u32> {
    Ok(word.parse::<u32>()?)
}

fn read_timing(row: &[u32]) -> anyhow::Result<Timing> {
    let [cost, deadline, spacing] = *row else {
        return Err(anyhow!("a list has three numbers a duty"));
    };
    Ok(Timing::new(cost, deadline, spacing))
}

fn read_record(row: &[u32]) -> anyhow::Result<Record> {
    let [cost, deadline, spacing, board] = *row else {
        return Err(anyhow!("a placing has four numbers a duty"));
    };
    Ok(Record::new(
        *b"DUTY    ",
        Timing::new(cost, deadline, spacing),
        u8::try_from(board)?,
    ))
}

fn read_gauges(heap: Global, word: &str, numbers: &[u32]) -> anyhow::Result<GaugeCase> {
    let [cycle, rows @ ..] = numbers else {
        return Err(anyhow!("a cycle is due"));
    };
    Ok(GaugeCase {
        verdicts: word.parse::<Verdicts>()?,
        cycle: *cycle,
        duties: rows.chunks(3).map(read_timing).try_collect(heap)?,
    })
}

// A placing's case, in which every duty fits.
fn read_placing(
    heap: Global,
    word: &str,
    boards: u32,
    cycle: u32,
    rows: &[u32],
) -> anyhow::Result<PlacingCase> {
    Ok(PlacingCase {
        letter: read_letter(word)?,
        boards: u8::try_from(boards)?,
        cycle,
        stuck: None,
        records: rows.chunks(4).map(read_record).try_collect(heap)?,
    })
}

fn read_placed(heap: Global, word: &str, numbers: &[u32]) -> anyhow::Result<PlacingCase> {
    let [boards, cycle, rows @ ..] = numbers else {
        return Err(anyhow!("boards and a cycle are due"));
    };
    read_placing(heap, word, *boards, *cycle, rows)
}

fn read_stuck(heap: Global, word: &str, numbers: &[u32]) -> anyhow::Result<PlacingCase> {
    let [boards, cycle, index, rows @ ..] = numbers else {
        return Err(anyhow!("boards, a cycle and an index are due"));
    };
    let mut case = read_placing(heap, word, *boards, *cycle, rows)?;
    case.stuck = Some(*index);
    Ok(case)
}

// Reads a case: its kind, a word of letters, and numbers, with one blank between two.
pub fn read_case(heap: Global, text: &str) -> anyhow::Result<Case> {
    let (kind, rest) = text.split_once(' ').context("a kind is due")?;
    if kind == "#" {
        return Ok(Case::Remark);
    }
    let (word, rest) = rest.split_once(' ').context("numbers are due")?;
    let numbers: Vec<u32> = rest.split(' ').map(read_number).try_collect(heap)?;
    match kind {
        "gauge" => Ok(Case::Gauges(read_gauges(heap, word, numbers.as_slice())?)),
        "placed" => Ok(Case::Placing(read_placed(heap, word, numbers.as_slice())?)),
        "stuck" => Ok(Case::Placing(read_stuck(heap, word, numbers.as_slice())?)),
        _ => Err(anyhow!("a case is of the kind gauge, placed or stuck")),
    }
}

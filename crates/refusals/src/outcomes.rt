// What comes of a case.
use super::errors::NoCase;
use fault::{Fault, Layer};
use std::fmt;
use std::str::FromStr;

#[derive(Clone, Copy, PartialEq)]
pub enum Outcome {
    // Read as so many duties, and written back as the same text.
    Same(usize),
    // Read, and written back as another text.
    Other,
    Refused(Refusal),
}

// A fault by its number.
#[derive(Clone, Copy, PartialEq)]
pub struct Refusal {
    number: usize,
    line: usize,
    column: usize,
    layer: Layer,
}

// A layer by its name; `Layer` is another crate's, so it can be neither shown by `Display` nor parsed by `FromStr` here.
fn layer_word(layer: Layer) -> &'static str {
    match layer {
        Layer::Field => "field",
        Layer::Line => "line",
        Layer::Table => "table",
        Layer::Call => "call",
    }
}

fn parse_layer(word: &str) -> Result<Layer, NoCase> {
    match word {
        "field" => Ok(Layer::Field),
        "line" => Ok(Layer::Line),
        "table" => Ok(Layer::Table),
        "call" => Ok(Layer::Call),
        _ => Err(NoCase::Form),
    }
}

// A number, and what stands after the blank behind it.
fn cut_number(text: &str) -> Result<(usize, &str), NoCase> {
    let (number, rest) = text.split_once(' ').ok_or(NoCase::Form)?;
    Ok((number.parse::<usize>()?, rest))
}

impl From<Fault> for Refusal {
    fn from(fault: Fault) -> Refusal {
        Refusal {
            number: usize::from(fault.number()),
            line: fault.line,
            column: fault.column,
            layer: fault.layer,
        }
    }
}

// Reads `NUMBER LINE COLUMN LAYER`.
impl FromStr for Refusal {
    type Err = NoCase;

    fn from_str(text: &str) -> Result<Refusal, NoCase> {
        let (number, place) = cut_number(text)?;
        let (line, place) = cut_number(place)?;
        let (column, layer) = cut_number(place)?;
        Ok(Refusal {
            number,
            line,
            column,
            layer: parse_layer(layer)?,
        })
    }
}

impl fmt::Display for Refusal {
    fn fmt<W: fmt::Write>(&self, f: &mut fmt::Formatter<W>) -> fmt::Result {
        let Refusal {
            number,
            line,
            column,
            layer,
        } = *self;
        write!(f, "{number} {line} {column} {}", layer_word(layer))
    }
}

// Reads `ok DUTIES`, or a refusal.
impl FromStr for Outcome {
    type Err = NoCase;

    fn from_str(text: &str) -> Result<Outcome, NoCase> {
        match text.strip_prefix("ok ") {
            Some(duties) => Ok(Outcome::Same(duties.parse::<usize>()?)),
            None => Ok(Outcome::Refused(text.parse::<Refusal>()?)),
        }
    }
}

impl fmt::Display for Outcome {
    fn fmt<W: fmt::Write>(&self, f: &mut fmt::Formatter<W>) -> fmt::Result {
        match self {
            Outcome::Same(duties) => write!(f, "ok {duties}"),
            Outcome::Other => write!(f, "another text"),
            Outcome::Refused(refusal) => write!(f, "{refusal}"),
        }
    }
}

// What the program's arguments ask for.
use anyhow::anyhow;
use std::env;

// Which ready queue the boards have.
#[derive(Clone, Copy)]
pub enum Queue {
    Row,
    Heap,
}

#[derive(Clone, Copy)]
pub struct Options {
    pub queue: Queue,
    // A chart after each run.
    pub chart: bool,
}

pub fn read_options(rt: &HostRuntime) -> anyhow::Result<Options> {
    let mut options = Options {
        queue: Queue::Row,
        chart: false,
    };
    for word in env::args(rt)?.skip(1) {
        match word.as_str() {
            "heap" => options.queue = Queue::Heap,
            "chart" => options.chart = true,
            _ => return Err(anyhow!("usage: trial [heap] [chart]")),
        }
    }
    Ok(options)
}

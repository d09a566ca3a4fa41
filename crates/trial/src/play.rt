// The runs of a trial.
use crate::rack::Rack;
use board::run_plan;
use fault::Fault;
use model::Event;
use queue::ReadyQueue;
use std::alloc::{AllocError, Global};
use std::fmt::Display;
use trials::{Chart, Command, Reply, Script, calls_in_front, count_on};

// A plan, and the commands to try on its boards.
#[derive(Drop)]
pub struct Trial<'a> {
    pub rack: Rack<'a>,
    pub script: Script,
    // Whether a chart follows each run.
    pub chart: bool,
}

// The calls among the commands, unanswered.
fn events_of(heap: Global, commands: &[Command]) -> Result<Vec<Event>, AllocError> {
    commands
        .iter()
        .filter_map(|command| match command {
            Command::Make(call) => Some(Event::of(*call)),
            _ => None,
        })
        .collect(heap)
}

impl Trial<'_> {
    // Tells at which line of the input the trial stops, and why: at the first of the commands that are left.
    fn stop(
        &self,
        rt: &HostRuntime,
        left: &[Command],
        why: impl Display + Drop,
    ) -> anyhow::Result<()> {
        let command = self.script.commands.len().saturating_sub(left.len());
        let line = command.saturating_add(self.rack.header.duties() as usize + 2);
        Ok(println!(rt; "line {line}: {why}")?)
    }

    // Prints what the board answered.
    fn print(&self, rt: &HostRuntime, board: u8, events: &[Event]) -> anyhow::Result<()> {
        let records = self.rack.records;
        println!(rt; "loaded {}", count_on(records, board))?;
        for event in events {
            rt.println(Reply(event.answer))?;
        }
        if self.chart {
            rt.println(Chart {
                board,
                records,
                events,
            })?;
        }
        Ok(())
    }

    // Makes the run of these calls on the board of this number, and prints what it answered, or why it was not
    // loaded. The queue comes back.
    fn run<Q: ReadyQueue + Drop>(
        &self,
        rt: &HostRuntime,
        number: u32,
        calls: &[Command],
        queue: Q,
    ) -> anyhow::Result<(Q, Result<(), Fault>)> {
        let board = u8::try_from(number).unwrap_or(u8::MAX);
        let mut events = events_of(rt.alloc(), calls)?;
        let header = self.rack.header;
        let (queue, answer) = run_plan(
            header,
            self.rack.records,
            header.letter(),
            board,
            queue,
            events.as_mut_slice(),
        );
        match answer {
            Ok(()) => self.print(rt, board, events.as_slice())?,
            Err(fault) => println!(rt; "refused {}", fault.number())?,
        }
        Ok((queue, answer))
    }

    // Makes all runs, and prints their answers in order. The queue comes back.
    pub fn play<Q: ReadyQueue + Drop>(&self, rt: &HostRuntime, queue: Q) -> anyhow::Result<Q> {
        let mut queue = queue;
        let mut left = self.script.commands.as_slice();
        while let [command, rest @ ..] = left {
            let Command::Load(number) = command else {
                self.stop(rt, left, "no board is loaded")?;
                return Ok(queue);
            };
            let (calls, after) = rest.split_at(calls_in_front(rest));
            let (back, answer) = self.run(rt, *number, calls, queue)?;
            queue = back;
            left = match (answer, after) {
                (Err(_), _) => rest,
                (Ok(()), [Command::Unload, after @ ..]) => {
                    rt.println("bare")?;
                    after
                }
                (Ok(()), [_, ..]) => {
                    self.stop(rt, after, "a board is loaded already")?;
                    return Ok(queue);
                }
                (Ok(()), []) => after,
            };
        }
        if let Err(no_command) = self.script.end {
            self.stop(rt, left, no_command)?;
        }
        Ok(queue)
    }
}

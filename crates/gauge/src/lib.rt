// Gauges: schedulability tests over lists of plain timings.
#![tactic(auto)]

mod by_letter;
mod density;
mod drawing;
mod exact;
mod fair;
mod fair_list;
mod gauges;
mod slope;
#[cfg(test)]
mod tests;

pub use density::Density;
pub use exact::Exact;
pub use fair::is_fair;
pub use gauges::Gauge;
pub use slope::Slope;

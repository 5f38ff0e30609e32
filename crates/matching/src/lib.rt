// Rolling matching and clearing of orders: paper 01, "The eight calls", Order and Clear.
#![tactic(auto)]

pub mod clearing;
mod fills;
pub mod fitness;
mod laying;
mod margins;
pub mod orders;
mod overlaps;
pub mod periods;
mod rests;
pub mod rolling;

//! Generated modules: source modules of any size that a seed gives, for tests and measurements of the whole way.
#![tactic(auto)]

mod draws;
mod funcs;
mod lines;
mod modules;
mod shapes;

pub use modules::make;

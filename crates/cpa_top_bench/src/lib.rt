//! The measurement `bench N`: its program's text, its configuration, what is counted of its run and
//! the line that says so (`specs/`).
#![tactic(auto)]

mod configuring;
mod line;
mod measuring;
mod text;

pub use configuring::bench_config;
pub use line::bench_line;
pub use measuring::{Measured, measure};
pub use text::bench_text;

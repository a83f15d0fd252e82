#![tactic(auto)]

mod marks;

pub use marks::Marks;

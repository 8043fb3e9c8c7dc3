//! The law of every run, put together from the laws on chains, on what happens and on passes: that a run of accepted databases is
//! lawful at each moment, and how runs begin and go on. No code of the product: each law is what a function without work ensures, so
//! that a function that calls it has the law.
#![tactic(auto)]

mod courses;

pub use courses::{begins, goes_on, lawful, stops};

//! Tests of the program by its words, its two ends and its limits, and of the line on standard error where no script brings it, on public
//! calls alone. Whole scripts stand in `slate_run_rows`.
#![tactic(auto)]

#[cfg(test)]
mod program_tests;
#[cfg(test)]
mod spot_tests;
#[cfg(test)]
mod test_runs;
#[cfg(test)]
mod why_tests;

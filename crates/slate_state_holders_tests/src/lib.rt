//! Tests of manifests and of records of compactions: their stores, their holders and the machines of their calls, on public calls alone.
//! A table has rows of a call and its answer, which one interpreter goes through in order.
#![tactic(auto)]

#[cfg(test)]
mod answers;
#[cfg(test)]
mod checkpoint_steps;
#[cfg(test)]
mod holder_steps;
#[cfg(test)]
mod log_steps;
#[cfg(test)]
mod manifest_calls;
#[cfg(test)]
mod manifest_steps;
#[cfg(test)]
mod manifest_tests;
#[cfg(test)]
mod record_bytes_tests;
#[cfg(test)]
mod record_calls;
#[cfg(test)]
mod record_steps;
#[cfg(test)]
mod record_tests;
#[cfg(test)]
mod record_values;
#[cfg(test)]
mod rule_tests;

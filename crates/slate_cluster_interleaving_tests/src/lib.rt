//! Tests of passes, of clusters by their own calls, and of calls whose steps mix, on public calls alone.
#![tactic(auto)]

#[cfg(test)]
mod claim_tests;
#[cfg(test)]
mod cluster_tests;
#[cfg(test)]
mod order_tests;
#[cfg(test)]
mod pass_tests;
#[cfg(test)]
mod race_tests;
#[cfg(test)]
mod record_tests;
#[cfg(test)]
mod test_clusters;
#[cfg(test)]
mod upload_tests;

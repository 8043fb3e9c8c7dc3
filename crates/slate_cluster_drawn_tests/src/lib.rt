//! Tests of runs of drawn lists of events, each audited.
#![tactic(auto)]

#[cfg(test)]
mod generated_tests;
#[cfg(test)]
mod test_audit;
#[cfg(test)]
mod test_clusters;
#[cfg(test)]
mod test_counts;
#[cfg(test)]
mod test_holdings;
#[cfg(test)]
mod test_lists;

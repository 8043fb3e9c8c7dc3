//! Tests of manifests, on public calls alone.
#![tactic(auto)]

#[cfg(test)]
mod copy_tests;
#[cfg(test)]
mod external_tests;
#[cfg(test)]
mod opening_tests;
#[cfg(test)]
mod prefix_tests;
#[cfg(test)]
mod selection_tests;
#[cfg(test)]
mod test_values;
#[cfg(test)]
mod tracker_tests;
#[cfg(test)]
mod watermark_tests;

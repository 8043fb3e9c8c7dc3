//! Tests of bytes, on public calls alone.
#![tactic(auto)]

#[cfg(test)]
mod boundary_tests;
#[cfg(test)]
mod info_tests;
#[cfg(test)]
mod manifest_test_rows;
#[cfg(test)]
mod manifest_tests;
#[cfg(test)]
mod normal_form_tests;
#[cfg(test)]
mod record_normal_tests;
#[cfg(test)]
mod record_test_rows;
#[cfg(test)]
mod record_tests;
#[cfg(test)]
mod refusal_tests;
#[cfg(test)]
mod test_texts;
#[cfg(test)]
mod unencodable_tests;

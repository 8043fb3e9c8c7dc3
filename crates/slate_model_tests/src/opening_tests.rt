//! Extractors of prefixes and stores of the write-ahead log, as persisted and as configured.

use crate::test_values::core_of;
use slate_ids::{SlateDBError, Text};
use slate_model::{ManifestCore, PrefixExtractor};
use std::alloc::Global;
use std::mem;
use std::process::Abort;

/// Finds the first bytes of a key, as many as this.
#[derive(Clone, Copy)]
struct FirstBytes {
    name: &'static str,
    len: usize,
}

impl PrefixExtractor for FirstBytes {
    ghost use Rattle.std.specs.Prelude.{Some};

    ghost means = { λ it. record { name = it.name.now; prefix_len = λ _. Some it.len } };

    fn name(&self) -> &str {
        self.name
    }

    fn prefix_len(&self, _prefix: &[u8]) -> Option<usize> {
        Some(self.len)
    }
}

/// What is said of an extractor.
#[derive(Clone, Copy)]
enum Verdict {
    Fits,
    /// The persisted and the configured name differ.
    Mismatch(Option<&'static str>, Option<&'static str>),
    /// This prefix isn't what this extractor finds.
    Unknown(&'static str, &'static str),
}

/// The persisted name of a database with the segment `seg`, the configured extractor, and what is said of it.
const EXTRACTORS: [(Option<&'static str>, Option<FirstBytes>, Verdict); 6] = [
    (
        Some("x"),
        Some(FirstBytes { name: "y", len: 3 }),
        Verdict::Mismatch(Some("x"), Some("y")),
    ),
    (
        Some("x"),
        Some(FirstBytes { name: "x", len: 2 }),
        Verdict::Unknown("seg", "x"),
    ),
    (
        Some("x"),
        Some(FirstBytes { name: "x", len: 3 }),
        Verdict::Fits,
    ),
    (Some("x"), None, Verdict::Mismatch(Some("x"), None)),
    (
        None,
        Some(FirstBytes { name: "x", len: 3 }),
        Verdict::Mismatch(None, Some("x")),
    ),
    (None, None, Verdict::Fits),
];

/// The persisted and the configured store of the log, and whether the configured one is refused.
const STORES: [(Option<&'static str>, Option<&'static str>, bool); 5] = [
    (Some("w"), None, true),
    (None, None, false),
    (Some("w"), Some("v"), true),
    (Some("w"), Some("w"), false),
    (None, Some("w"), false),
];

/// A copy of a text, where there is one.
fn text_of(rt: &impl Abort, alloc: Global, text: Option<&str>) -> Option<Text> {
    match text {
        Some(text) => Some(Text::copy_of(alloc, text).expect(rt, "memory")),
        None => None,
    }
}

/// Whether a text is this one.
fn is_text(text: &Option<Text>, expected: Option<&str>) -> bool {
    match text {
        None => expected.is_none(),
        Some(text) => expected == Some(text.as_str()),
    }
}

/// Whether an answer says this of an extractor.
fn says(answer: &Result<(), SlateDBError>, verdict: Verdict) -> bool {
    match answer {
        Ok(()) => matches!(verdict, Verdict::Fits),
        Err(e) => match verdict {
            Verdict::Fits => false,
            Verdict::Mismatch(old, new) => is_mismatch(e, old, new),
            Verdict::Unknown(unknown, name) => is_unknown(e, unknown, name),
        },
    }
}

fn is_mismatch(e: &SlateDBError, old: Option<&str>, new: Option<&str>) -> bool {
    match e {
        SlateDBError::SegmentExtractorMismatch {
            persisted,
            configured,
        } => is_text(persisted, old) && is_text(configured, new),
        _ => false,
    }
}

fn is_unknown(e: &SlateDBError, unknown: &str, name: &str) -> bool {
    match e {
        SlateDBError::SegmentPrefixNotRecognized { prefix, extractor } => {
            prefix.as_slice() == unknown.as_bytes() && extractor.as_str() == name
        }
        _ => false,
    }
}

/// A database with this extractor and the segment `seg`.
fn extracted_by(rt: &impl Abort, alloc: Global, name: Option<&str>) -> ManifestCore {
    let mut core = core_of(rt, alloc, &["seg"]);
    let name = text_of(rt, alloc, name);
    drop(mem::replace(&mut core.segment_extractor_name, name));
    core
}

/// What a database answers to this extractor, or to none.
fn answer_of(
    alloc: Global,
    core: &ManifestCore,
    configured: Option<FirstBytes>,
) -> Result<(), SlateDBError> {
    match configured {
        Some(extractor) => core.validate_extractor_configuration(alloc, Some(&extractor)),
        None => core.validate_extractor_configuration(alloc, None),
    }
}

/// Whether a database of the persisted extractor says this of the configured one.
fn is_said(
    rt: &impl Abort,
    alloc: Global,
    persisted: Option<&str>,
    configured: Option<FirstBytes>,
    verdict: Verdict,
) -> bool {
    let core = extracted_by(rt, alloc, persisted);
    let answer = answer_of(alloc, &core, configured);
    drop(core);
    let is_so = says(&answer, verdict);
    drop(answer);
    is_so
}

#[test]
fn the_extractor_stays_and_finds_each_prefix(rt: HostRuntime) {
    for (persisted, configured, verdict) in &EXTRACTORS {
        let is_so = is_said(&rt, rt.alloc(), *persisted, *configured, *verdict);
        assert!(rt; is_so, "at {persisted:?}");
    }
}

/// A database with this store of the log.
fn logged_in(rt: &impl Abort, alloc: Global, uri: Option<&str>) -> ManifestCore {
    let mut core = ManifestCore::new(alloc);
    let uri = text_of(rt, alloc, uri);
    drop(mem::replace(&mut core.wal_object_store_uri, uri));
    core
}

/// Whether an answer says that the store is another one.
fn is_other_store(answer: &Result<(), SlateDBError>) -> bool {
    match answer {
        Err(SlateDBError::WalStoreReconfigurationError) => true,
        _ => false,
    }
}

/// Whether a database with this store of the log refuses another.
fn refuses_store(
    rt: &impl Abort,
    alloc: Global,
    persisted: Option<&str>,
    configured: Option<&str>,
) -> bool {
    let core = logged_in(rt, alloc, persisted);
    let answer = core.validate_wal_object_store_uri(configured);
    drop(core);
    let is_so = is_other_store(&answer);
    drop(answer);
    is_so
}

#[test]
fn the_store_of_the_log_stays(rt: HostRuntime) {
    for (persisted, configured, refused) in &STORES {
        let answer = refuses_store(&rt, rt.alloc(), *persisted, *configured);
        assert!(rt; answer == *refused, "at {persisted:?}, {configured:?}");
    }
}

//! Texts as scripts.

use slate_ids::Ulid;
use slate_script::{Script, ScriptError, ScriptPlace, read_script};
use std::alloc::{AllocError, Global};
use std::process::Abort;

/// A text with what stands before and after it.
pub(crate) fn text_of(
    rt: &impl Abort,
    alloc: Global,
    before: &str,
    text: &str,
    after: &str,
) -> String {
    let mut whole = String::from_str(alloc, before).expect(rt, "memory");
    whole.push_str(text).expect(rt, "memory");
    whole.push_str(after).expect(rt, "memory");
    whole
}

/// The id of a table or a view as scripts write it, with what stands before it.
pub(crate) fn push_ulid(out: &mut String, before: &str, id: Ulid) -> Result<(), AllocError> {
    let (ms, tail) = (id.timestamp_ms(), id.tail());
    write!(out, "{before}{ms}:{tail}")
}

/// Whether this is the text.
pub(crate) fn is_text(out: String, text: &str) -> bool {
    let same = out.as_str() == text;
    drop(out);
    same
}

/// The script of a text that is one.
pub(crate) fn script_of(rt: &impl Abort, alloc: Global, text: &str) -> Script {
    read_script(alloc, text.as_bytes()).expect(rt, "a script")
}

/// Why a text is no script.
pub(crate) fn refusal_of(alloc: Global, text: &str) -> Option<ScriptError> {
    match read_script(alloc, text.as_bytes()) {
        Ok(script) => {
            drop(script);
            None
        }
        Err(refusal) => Some(refusal),
    }
}

/// Why a text is no script, with what stands before and after it.
pub(crate) fn refusal_within(
    rt: &impl Abort,
    alloc: Global,
    before: &str,
    text: &str,
    after: &str,
) -> Option<ScriptError> {
    let whole = text_of(rt, alloc, before, text, after);
    let refusal = refusal_of(alloc, whole.as_str());
    drop(whole);
    refusal
}

/// The script of a text that is one, with what stands before and after it.
pub(crate) fn script_within(
    rt: &impl Abort,
    alloc: Global,
    before: &str,
    text: &str,
    after: &str,
) -> Script {
    let whole = text_of(rt, alloc, before, text, after);
    let script = script_of(rt, alloc, whole.as_str());
    drop(whole);
    script
}

/// Whether a text is no script for an item at this place, with what stands before and after it.
pub(crate) fn is_bad_within(
    rt: &impl Abort,
    alloc: Global,
    before: &str,
    text: &str,
    after: &str,
    place: ScriptPlace,
) -> bool {
    match refusal_within(rt, alloc, before, text, after) {
        Some(ScriptError::BadScript(found)) => found == place,
        _ => false,
    }
}

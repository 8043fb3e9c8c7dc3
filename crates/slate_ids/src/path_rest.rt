//! What follows a database in a path of no kind of its own.
ghost use Rattle.std.specs.Prelude.{◌≡◌, IfOk, Some, None, true, if◌then◌else◌};
ghost use Rattle.slate_ids.specs.PathKind.{is_rest};

use crate::out_of_memory::OutOfMemory;
use crate::path_kind::kind_of;
use crate::text::Text;
use std::alloc::Global;
use std::marker::Model;

/// The text after a database and `/` of an object that is of none of the kinds with a name.
#[derive(Debug, Drop)]
pub struct PathRest {
    text: Text,
}

impl Model for PathRest {
    ghost use Rattle.std.specs.Prelude.{ℕ, List};

    ghost Value = { List ℕ };

    ghost use Rattle.std.specs.Prelude.{◌≡◌, true};
    ghost use Rattle.slate_ids.specs.PathKind.{is_rest};

    ghost view = { λ a. a.text };

    ghost invariant = { λ a. is_rest a.text ≡ true };
}

// Whether the text is there and has the form of no kind.
#[tactic(auto, unfolding(crate::specs::PathKind::is_rest))]
fn is_rest(text: &str) -> bool
    ensures { result ≡ is_rest text.now }
{
    !text.is_empty() && kind_of(text.as_bytes()).is_none()
}

impl PathRest {
    /// This text, where it is there and has the form of none of the kinds with a name.
    pub fn from_text(alloc: Global, text: &str) -> Result<Option<PathRest>, OutOfMemory>
        ensures { IfOk result
            (λ rest. rest ≡ (if is_rest text.now then Some text.now else None)) }
    {
        if is_rest(text) {
            Ok(Some(PathRest::copy_of(alloc, text)?))
        } else {
            Ok(None)
        }
    }

    /// A copy of a text that has the form of none of the kinds with a name.
    pub(crate) fn copy_of(alloc: Global, text: &str) -> Result<PathRest, OutOfMemory>
        requires { is_rest text.now ≡ true }
        ensures { IfOk result (λ rest. rest ≡ text.now) }
    {
        Ok(PathRest {
            text: Text::copy_of(alloc, text)?,
        })
    }

    /// The text.
    pub fn as_str(&self) -> &str
        ensures text { result.now ≡ self.now }
        ensures rest { is_rest self.now ≡ true }
    {
        self.text.as_str()
    }

    /// An equal value.
    pub fn copy(&self, alloc: Global) -> Result<PathRest, OutOfMemory>
        ensures { IfOk result (λ copied. copied ≡ self.now) }
    {
        PathRest::copy_of(alloc, self.as_str())
    }
}

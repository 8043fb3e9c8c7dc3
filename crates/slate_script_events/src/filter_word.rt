//! Filters of passes, as scripts say them.
ghost use Rattle.std.specs.Prelude.{◌≡◌, bytes_eq, filter, IfOk};
ghost use Rattle.std.specs.List.{list_any};
ghost use Rattle.slate_script_events.specs.WrittenFilters as filters;

use slate_gc_picks::GcFilter;
use slate_ids::{Listed, OutOfMemory, Text};
use slate_model::Plain;
use slate_store::{ObjectMetadata, copy_listing};
use std::alloc::Global;

/// Which candidates of a pass may be deleted.
#[derive(Debug, Drop)]
pub enum FilterWord {
    /// Every candidate.
    All,
    /// No candidate.
    Nothing,
    /// Those that lie at one of these paths.
    Paths(Listed<Text>),
}

// Whether a text is one of these.
fn is_among(text: &str, paths: &[Text]) -> bool
    ensures { result ≡ list_any (bytes_eq text.now) paths.now }
{
    paths.iter().any(|path| text == path.as_str())
}

// Whether an object lies at one of these paths.
fn lies_at(alloc: Global, paths: &[Text], object: &ObjectMetadata) -> Result<bool, OutOfMemory>
    ensures { IfOk result (λ lies. lies ≡ filters.lies_at paths.now object.now) }
{
    let text = object.location.to_text(alloc)?;
    Ok(is_among(text.as_str(), paths))
}

// Copies of those that lie at one of these paths, in their order.
fn those_at(
    alloc: Global,
    paths: &[Text],
    candidates: &[ObjectMetadata],
) -> Result<Listed<ObjectMetadata>, OutOfMemory>
    ensures { IfOk result (λ kept. kept ≡ filter (filters.lies_at paths.now) candidates.now) }
{
    let mut kept = Listed::new(alloc);
    for object in candidates {
        if lies_at(alloc, paths, object)? {
            kept.push(object.copy(alloc)?)?;
        }
    }
    Ok(kept)
}

impl FilterWord {
    /// An equal filter.
    pub fn copy(&self, alloc: Global) -> Result<FilterWord, OutOfMemory>
        ensures { IfOk result (λ copied. copied ≡ self.now) }
    {
        match self {
            FilterWord::All => Ok(FilterWord::All),
            FilterWord::Nothing => Ok(FilterWord::Nothing),
            FilterWord::Paths(paths) => Ok(FilterWord::Paths(paths.clone(alloc)?)),
        }
    }
}

/// The candidates that the word allows, in their order. A path at which no candidate lies allows nothing.
impl GcFilter for FilterWord {
    ghost use Rattle.slate_script_events.specs.WrittenFilters.{returned_by};

    ghost returns = { returned_by };

    fn filter(
        &self,
        alloc: Global,
        candidates: &[ObjectMetadata],
    ) -> Result<Vec<ObjectMetadata>, OutOfMemory> {
        match self {
            FilterWord::All => Ok(copy_listing(alloc, candidates)?.into_vec()),
            FilterWord::Nothing => Ok(Vec::new(alloc)),
            FilterWord::Paths(paths) => Ok(those_at(
                alloc,
                paths.as_slice(),
                candidates,
            )?.into_vec()),
        }
    }
}

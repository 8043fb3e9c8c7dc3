//! Where something stands in an input.

use crate::name::Name;
use std::fmt;

/// A field, or with a place the item there of the array in it, counted from 0.
#[derive(Clone, Copy, Debug, Drop)]
struct Step {
    field: Name,
    item: Option<usize>,
}

/// Where something stands in a script as it is written, as `databases[0].l0[2].view` or `databases[0].record.compactions[1].id`.
#[derive(Clone, Copy, Debug, Drop)]
pub struct Spot {
    list: Option<Step>,
    field: Option<Step>,
    inner: Option<Step>,
    last: Option<Step>,
}

impl Spot {
    /// The whole input.
    pub(crate) const WHOLE: Spot = Spot {
        list: None,
        field: None,
        inner: None,
        last: None,
    };

    // A step further. A fourth step is the last.
    fn then(self, step: Step) -> Spot {
        match self {
            Spot { list: None, .. } => Spot {
                list: Some(step),
                ..self
            },
            Spot { field: None, .. } => Spot {
                field: Some(step),
                ..self
            },
            Spot { inner: None, .. } => Spot {
                inner: Some(step),
                ..self
            },
            _ => Spot {
                last: Some(step),
                ..self
            },
        }
    }

    /// A field of what stands here.
    pub(crate) fn at(self, field: Name) -> Spot {
        self.then(Step { field, item: None })
    }

    /// An item of the array in a field of what stands here.
    pub(crate) fn item(self, field: Name, item: usize) -> Spot {
        self.then(Step {
            field,
            item: Some(item),
        })
    }
}

impl fmt::Display for Step {
    ghost use Rattle.std.specs.Prelude.{None};

    ghost output = { λ _. None };

    fn fmt<W: fmt::Write>(&self, f: &mut fmt::Formatter<W>) -> fmt::Result {
        let field = self.field.text();
        match self.item {
            None => f.write_str(field),
            Some(item) => write!(f, "{field}[{item}]"),
        }
    }
}

// Writes a step after a point, where there is one.
fn write_further<W: fmt::Write>(f: &mut fmt::Formatter<W>, step: Option<Step>) -> fmt::Result {
    match step {
        None => Ok(()),
        Some(step) => write!(f, ".{step}"),
    }
}

impl fmt::Display for Spot {
    ghost use Rattle.std.specs.Prelude.{None};

    ghost output = { λ _. None };

    fn fmt<W: fmt::Write>(&self, f: &mut fmt::Formatter<W>) -> fmt::Result {
        match self.list {
            None => f.write_str("the input"),
            Some(list) => {
                write!(f, "{list}")?;
                write_further(f, self.field)?;
                write_further(f, self.inner)?;
                write_further(f, self.last)
            }
        }
    }
}

//! The rules on records of compactions.

use crate::test_records::{Id, Made, Row, ids, rows};
use slate_ids::{SlateDBError, UpdateRule};
use slate_state_record_updates::CompactionsRules;
use slate_txn_log::{Right, Rules};
use std::alloc::Global;
use std::process::Abort;

/// Under which right a record is put.
#[derive(Clone, Copy)]
enum Under {
    Plain,
    Attach,
    /// A compactor that made the table 100:1.
    Compactor,
    /// A holder of the record with these pending.
    Holder(&'static [Id]),
}

/// What is broken.
#[derive(Clone, Copy, PartialEq, Eq)]
enum Broken {
    Nothing,
    Rule(UpdateRule),
    /// These milliseconds come after those.
    Ticks(i64, i64),
    Other,
}

/// An old and a new record, each with its epoch, the right, and what is broken.
struct Case {
    old: (u64, &'static [Row]),
    new: (u64, &'static [Row]),
    under: Under,
    broken: Broken,
}

const ONE: &[Row] = &[((100, 1), &[])];

const TWO: &[Row] = &[((100, 1), &[]), ((200, 1), &[])];

const ANY_HOLDER: Under = Under::Holder(&[]);

/// Each rule broken alone, and what just keeps it; then several.
const CASES: &[Case] = &[
    // the epoch
    Case {
        old: (2, ONE),
        new: (1, ONE),
        under: ANY_HOLDER,
        broken: Broken::Rule(UpdateRule::U1),
    },
    Case {
        old: (2, ONE),
        new: (2, ONE),
        under: Under::Plain,
        broken: Broken::Nothing,
    },
    Case {
        old: (2, ONE),
        new: (3, ONE),
        under: Under::Plain,
        broken: Broken::Nothing,
    },
    // new compactions
    Case {
        old: (0, ONE),
        new: (0, &[((99, 9), &[]), ((100, 1), &[])]),
        under: Under::Plain,
        broken: Broken::Ticks(100, 99),
    },
    Case {
        old: (0, ONE),
        new: (0, &[((100, 0), &[]), ((100, 1), &[])]),
        under: Under::Plain,
        broken: Broken::Nothing,
    },
    Case {
        old: (0, TWO),
        new: (0, &[((100, 1), &[]), ((150, 1), &[]), ((200, 1), &[])]),
        under: Under::Plain,
        broken: Broken::Nothing,
    },
    Case {
        old: (0, TWO),
        new: (0, &[((150, 1), &[]), ((200, 1), &[])]),
        under: ANY_HOLDER,
        broken: Broken::Nothing,
    },
    Case {
        old: (0, &[]),
        new: (0, &[((0, 0), &[])]),
        under: Under::Plain,
        broken: Broken::Nothing,
    },
    // outputs
    Case {
        old: (0, ONE),
        new: (0, &[((100, 1), &[Made::Table((99, 1))])]),
        under: Under::Plain,
        broken: Broken::Ticks(100, 99),
    },
    Case {
        old: (0, ONE),
        new: (0, &[((100, 1), &[Made::Table((100, 0))])]),
        under: Under::Plain,
        broken: Broken::Nothing,
    },
    Case {
        old: (0, ONE),
        new: (0, &[((100, 1), &[Made::File(1)])]),
        under: Under::Plain,
        broken: Broken::Nothing,
    },
    Case {
        old: (0, ONE),
        new: (
            0,
            &[((100, 1), &[Made::Table((98, 1)), Made::Table((101, 1))])],
        ),
        under: Under::Plain,
        broken: Broken::Ticks(100, 98),
    },
    Case {
        old: (0, ONE),
        new: (
            0,
            &[(
                (100, 1),
                &[Made::Table((101, 1)), Made::File(1), Made::Table((97, 1))],
            )],
        ),
        under: Under::Plain,
        broken: Broken::Ticks(100, 97),
    },
    Case {
        old: (0, &[((100, 1), &[Made::Table((99, 1))])]),
        new: (0, ONE),
        under: Under::Plain,
        broken: Broken::Nothing,
    },
    // all go
    Case {
        old: (0, ONE),
        new: (0, &[]),
        under: ANY_HOLDER,
        broken: Broken::Rule(UpdateRule::U8),
    },
    Case {
        old: (0, &[]),
        new: (0, &[]),
        under: Under::Plain,
        broken: Broken::Nothing,
    },
    // one goes
    Case {
        old: (0, TWO),
        new: (0, ONE),
        under: Under::Plain,
        broken: Broken::Rule(UpdateRule::U9),
    },
    Case {
        old: (0, TWO),
        new: (0, ONE),
        under: Under::Attach,
        broken: Broken::Rule(UpdateRule::U9),
    },
    Case {
        old: (0, TWO),
        new: (0, ONE),
        under: Under::Compactor,
        broken: Broken::Rule(UpdateRule::U9),
    },
    Case {
        old: (0, TWO),
        new: (0, ONE),
        under: ANY_HOLDER,
        broken: Broken::Nothing,
    },
    Case {
        old: (0, TWO),
        new: (0, ONE),
        under: Under::Holder(&[(200, 1)]),
        broken: Broken::Rule(UpdateRule::U9),
    },
    Case {
        old: (0, TWO),
        new: (0, ONE),
        under: Under::Holder(&[(100, 1), (200, 1)]),
        broken: Broken::Rule(UpdateRule::U9),
    },
    Case {
        old: (0, TWO),
        new: (0, ONE),
        under: Under::Holder(&[(100, 1), (200, 0)]),
        broken: Broken::Nothing,
    },
    Case {
        old: (0, TWO),
        new: (0, TWO),
        under: Under::Holder(&[(200, 1)]),
        broken: Broken::Nothing,
    },
    // several rules broken, of which the first is told, and several times one rule
    Case {
        old: (2, ONE),
        new: (1, &[((99, 9), &[]), ((100, 1), &[])]),
        under: Under::Plain,
        broken: Broken::Rule(UpdateRule::U1),
    },
    Case {
        old: (2, ONE),
        new: (1, &[]),
        under: Under::Plain,
        broken: Broken::Rule(UpdateRule::U1),
    },
    Case {
        old: (0, ONE),
        new: (0, &[((98, 1), &[Made::Table((97, 1))]), ((100, 1), &[])]),
        under: Under::Plain,
        broken: Broken::Ticks(100, 98),
    },
    Case {
        old: (0, ONE),
        new: (0, &[((100, 1), &[Made::Table((96, 1))])]),
        under: Under::Plain,
        broken: Broken::Ticks(100, 96),
    },
    Case {
        old: (0, TWO),
        new: (0, &[((98, 9), &[]), ((99, 1), &[])]),
        under: Under::Plain,
        broken: Broken::Ticks(100, 98),
    },
    Case {
        old: (0, TWO),
        new: (0, &[((200, 1), &[Made::Table((199, 1))])]),
        under: Under::Plain,
        broken: Broken::Ticks(200, 199),
    },
    Case {
        old: (0, TWO),
        new: (
            0,
            &[
                ((100, 1), &[Made::Table((99, 1)), Made::Table((98, 1))]),
                ((200, 1), &[Made::Table((1, 1))]),
            ],
        ),
        under: Under::Plain,
        broken: Broken::Ticks(100, 99),
    },
    Case {
        old: (0, TWO),
        new: (0, &[((99, 1), &[])]),
        under: Under::Plain,
        broken: Broken::Ticks(100, 99),
    },
    Case {
        old: (0, ONE),
        new: (0, &[]),
        under: Under::Plain,
        broken: Broken::Rule(UpdateRule::U8),
    },
];

/// These cases.
fn cases() -> &'static [Case] {
    CASES
}

fn right(rt: &impl Abort, alloc: Global, under: Under) -> Right {
    match under {
        Under::Plain => Right::Plain,
        Under::Attach => Right::Attach,
        Under::Compactor => Right::Compactor {
            outputs: ids(rt, alloc, &[(100, 1)]),
        },
        Under::Holder(pending) => Right::RecordHolder {
            pending: ids(rt, alloc, pending),
        },
    }
}

fn told(checked: &Result<(), SlateDBError>) -> Broken {
    match checked {
        Ok(()) => Broken::Nothing,
        Err(e) => match e {
            SlateDBError::UpdateRefused(rule) => Broken::Rule(*rule),
            SlateDBError::InvalidClockTick {
                last_tick,
                next_tick,
            } => Broken::Ticks(*last_tick, *next_tick),
            _ => Broken::Other,
        },
    }
}

fn first_broken(rt: &impl Abort, alloc: Global, case: &Case) -> Broken {
    let old = rows(rt, alloc, case.old.0, case.old.1);
    let new = rows(rt, alloc, case.new.0, case.new.1);
    let right = right(rt, alloc, case.under);
    let checked = CompactionsRules.check(alloc, 1, &old, &new, &right);
    drop(right);
    drop(new);
    drop(old);
    let broken = told(&checked);
    drop(checked);
    broken
}

#[test]
fn the_first_rule_that_is_broken_is_told(rt: HostRuntime) {
    for (i, case) in cases().iter().enumerate() {
        assert!(rt;
            first_broken(&rt, rt.alloc(), case) == case.broken,
            "case {i}"
        );
    }
}

//! Where an event stands in the script that has it.

use slate_run_hints::event_spot;
use std::alloc::Global;
use std::process::Abort;

/// An open, and a step a thousand times.
const BEFORE: &str = r#"{"databases":[],"events":[{"stop":1},{"step":1,"at":1,"times":1000},"#;

// Whether an event stands here in a script of three items.
fn stands_at(rt: &impl Abort, alloc: Global, place: u64, words: &str) -> bool {
    let mut whole = String::from_str(alloc, BEFORE).expect(rt, "memory");
    whole.push_str(r#"{"stop":2}]}"#).expect(rt, "memory");
    let spot = event_spot(alloc, whole.as_bytes(), place);
    drop(whole);
    match spot {
        Some(spot) => {
            let said = format!(in alloc; "{spot}").expect(rt, "memory");
            let same = said.as_str() == words;
            drop(said);
            same
        }
        None => words.is_empty(),
    }
}

#[test]
fn spots_of_events(rt: HostRuntime) {
    let spots = [
        (0, "events[0]"),
        (1, "events[1]"),
        (1000, "events[1]"),
        (1001, "events[2]"),
        (1002, ""),
    ];
    for (place, words) in &spots {
        assert!(rt; stands_at(&rt, rt.alloc(), *place, words), "at {place}");
    }
}

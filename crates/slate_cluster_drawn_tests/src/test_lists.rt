//! Lists of events that are drawn from a seed: two mixes of parties of one database.
ghost use Rattle.std.specs.Prelude.{◌<◌};

use crate::test_clusters::db;
use bytes::Bytes;
use slate_ids::{CheckpointId, DbPath, GcMessage, Listed, Ulid};
use slate_script::{Call, Event, FilterWord, FlushTable, PartyKind};
use slate_store::Mark;
use std::alloc::Global;
use std::process::Abort;

/// Which parties a list has, by their places.
#[derive(Clone, Copy)]
pub(crate) enum Mix {
    /// Two writers with their uploads and flushes, two holders and two collectors.
    Collectors,
    /// Two compactors, two workers, a writer, a holder and a collector.
    Compactors,
}

// How many places a mix has.
fn places(mix: Mix) -> usize {
    match mix {
        Mix::Collectors => 6,
        Mix::Compactors => 7,
    }
}

// The places of the first worker and of the collector beside compactors.
const WORKER: usize = 2;

const COLLECTOR: usize = 6;

// How many compactions the opening record has.
const COMPACTIONS: u64 = 6;

// What is drawn from, and what was drawn so far.
#[derive(Clone, Copy)]
struct Draws {
    mix: Mix,
    // A linear congruence modulo 2^64, of which the upper 31 bits are given.
    state: u64,
    moment: i64,
    // The number of the next party, and that of the next checkpoint.
    next_party: u32,
    next_id: u64,
    // The tail of the next table or view.
    next_tail: u128,
    // The table that the worker or writer of each place uploaded last, and the compaction that it claimed last.
    uploaded: [Option<Ulid>; 7],
    claimed: [Option<Ulid>; 7],
    // The compaction that a compactor was to schedule last.
    scheduled: Ulid,
    // The place of the compactor that was to open last, which is fenced the least.
    leading: usize,
    // The place whose party rests for a while.
    resting: usize,
    // The parties of the moment.
    parties: [u32; 7],
}

impl Draws {
    // A number below the bound.
    fn below(&mut self, bound: u64) -> u64
        requires { 0 < bound }
        ensures { result < bound }
    {
        self.state = self
            .state
            .wrapping_mul(6364136223846793005)
            .wrapping_add(1442695040888963407);
        (self.state >> 33) % bound
    }

    // One time in so many.
    fn once_in(&mut self, times: u64) -> bool
        requires { 0 < times }
    {
        self.below(times) == 0
    }

    // One of the six places; half the time one of the two of writers.
    fn any_place(&mut self) -> usize {
        if self.once_in(2) {
            self.below(2) as usize
        } else {
            self.below(6) as usize
        }
    }

    // A place, seldom that of the party that rests.
    fn restless_place(&mut self) -> usize {
        let place = self.any_place();
        if place == self.resting {
            self.any_place()
        } else {
            place
        }
    }

    // A place; the leading compactor and the workers have the most.
    fn busy_place(&mut self) -> usize {
        match self.below(16) {
            0 => 0,
            1 => 1,
            2 | 3 | 4 | 5 => self.leading,
            6 | 7 | 8 => 2,
            9 | 10 | 11 => 3,
            12 => 4,
            13 => 5,
            _ => COLLECTOR,
        }
    }

    // One of the places.
    fn place(&mut self) -> usize {
        match self.mix {
            Mix::Collectors => self.restless_place(),
            Mix::Compactors => self.busy_place(),
        }
    }

    fn party_at(&self, place: usize) -> u32 {
        match self.parties.as_slice().get(place) {
            Some(party) => *party,
            None => 0,
        }
    }

    // A new party comes at a place.
    fn comes(&mut self, place: usize) -> u32 {
        let party = self.next_party;
        self.next_party = party.saturating_add(1);
        if let Some(at) = self.parties.as_mut_slice().get_mut(place) {
            *at = party;
        }
        party
    }

    fn mark(&mut self) -> Mark {
        match self.below(40) {
            0 => Mark::Fail,
            1 => Mark::Lost,
            _ => Mark::Good,
        }
    }

    // Moments rise by up to a second, and one in twenty jumps back by up to five.
    fn jump(&mut self) -> i64 {
        if self.once_in(20) {
            -(self.below(5000) as i64)
        } else {
            self.below(1000) as i64
        }
    }

    // The next moment, which jumps, or rises by up to a tenth of a second.
    fn moment(&mut self) -> i64 {
        let span = match self.mix {
            Mix::Collectors => self.jump(),
            Mix::Compactors => self.below(100) as i64,
        };
        self.moment = self.moment.saturating_add(span).max(0);
        self.moment
    }

    // One lifetime in three is none.
    fn drawn_lifetime(&mut self) -> Option<u64> {
        if self.once_in(3) {
            None
        } else {
            Some(self.below(20_000))
        }
    }

    // The lifetime of a new checkpoint; none where nothing collects it.
    fn lifetime(&mut self) -> Option<u64> {
        match self.mix {
            Mix::Collectors => self.drawn_lifetime(),
            Mix::Compactors => None,
        }
    }

    // An id that a start has brought, where there is one.
    fn known_id(&mut self) -> CheckpointId {
        let next = self.next_id;
        CheckpointId::from_u64(if next == 0 { 0 } else { self.below(next) })
    }

    fn new_id(&mut self) -> CheckpointId {
        let id = self.next_id;
        self.next_id = id.saturating_add(1);
        CheckpointId::from_u64(id)
    }

    // An id of this many milliseconds that none was before.
    fn new_ulid(&mut self, ms: u64) -> Ulid {
        let tail = self.next_tail % (1 << 80);
        self.next_tail = tail.saturating_add(1);
        Ulid::from_parts(ms % (1 << 48), tail)
    }

    // One of the compactions of the opening record.
    fn compaction(&mut self) -> Ulid {
        let tail = self.below(COMPACTIONS).saturating_add(1);
        Ulid::from_parts(10, tail as u128)
    }

    // Two passes in three are over the records.
    fn drawn_pass(&mut self) -> GcMessage {
        if self.once_in(3) {
            GcMessage::Manifest
        } else {
            GcMessage::Compactions
        }
    }

    // Over which log a pass is; over the manifests where there are no records.
    fn passed(&mut self) -> GcMessage {
        match self.mix {
            Mix::Collectors => GcMessage::Manifest,
            Mix::Compactors => self.drawn_pass(),
        }
    }

    fn pass(&mut self) -> Call {
        let pass = self.passed();
        let dry_run = self.once_in(10);
        let filter = if self.once_in(10) {
            FilterWord::Nothing
        } else {
            FilterWord::All
        };
        Call::Pass {
            pass,
            min_age: 0,
            dry_run,
            filter,
        }
    }

    // How many milliseconds before this moment a table is made: every other one up to a minute.
    fn lateness(&mut self) -> u64 {
        if self.once_in(2) {
            self.below(60_000)
        } else {
            0
        }
    }

    // The milliseconds of a new table: those of this moment, or beside collectors from some time before.
    fn upload_ms(&mut self) -> u64 {
        let late = match self.mix {
            Mix::Collectors => self.lateness(),
            Mix::Compactors => 0,
        };
        (self.moment.max(0) as u64).saturating_sub(late)
    }

    fn upload(&mut self, place: usize) -> Call {
        let ms = self.upload_ms();
        let table = self.new_ulid(ms);
        if let Some(uploaded) = self.uploaded.as_mut_slice().get_mut(place) {
            *uploaded = Some(table);
        }
        Call::Upload {
            table,
            first: Bytes::from_static(b"a"),
            last: Bytes::from_static(b"z"),
        }
    }

    fn uploaded_at(&self, place: usize) -> Option<Ulid> {
        match self.uploaded.as_slice().get(place) {
            Some(table) => *table,
            None => None,
        }
    }

    // A schedule of any compaction.
    fn schedule(&mut self) -> Call {
        let id = self.compaction();
        self.scheduled = id;
        Call::Schedule { id }
    }

    // A claim, three times in four of the compaction that was to be scheduled last.
    fn claim(&mut self, place: usize) -> Call {
        let id = if self.once_in(4) {
            self.compaction()
        } else {
            self.scheduled
        };
        if let Some(claimed) = self.claimed.as_mut_slice().get_mut(place) {
            *claimed = Some(id);
        }
        Call::Claim { id }
    }

    // The compaction that a worker claimed last; any one before its first claim.
    fn claimed_at(&mut self, place: usize) -> Ulid {
        match self.claimed.as_slice().get(place) {
            Some(Some(id)) => *id,
            _ => self.compaction(),
        }
    }

    // A report of what a worker claimed last, with the table that it uploaded last.
    fn report(&mut self, rt: &impl Abort, alloc: Global, place: usize) -> Call {
        let id = self.claimed_at(place);
        let mut tables = Listed::new(alloc);
        if let Some(table) = self.uploaded_at(place) {
            tables.push(table).expect(rt, "memory");
        }
        Call::Report { id, tables }
    }

    // A view of this table, in one of three trees.
    fn flushed(&mut self, table: Ulid) -> FlushTable {
        let view = self.new_ulid(0);
        let prefix = match self.below(3) {
            0 => Bytes::from_static(b"p"),
            1 => Bytes::from_static(b"q"),
            _ => Bytes::new(),
        };
        FlushTable {
            table,
            view,
            prefix,
        }
    }

    // Whether a flush has no table: beside collectors one in four.
    fn flushes_none(&mut self) -> bool {
        match self.mix {
            Mix::Collectors => self.once_in(4),
            Mix::Compactors => false,
        }
    }

    // The table of a flush, which the writer uploaded last.
    fn flushed_table(&mut self, place: usize) -> Option<Ulid> {
        if self.flushes_none() {
            None
        } else {
            self.uploaded_at(place)
        }
    }

    fn flush(&mut self, rt: &impl Abort, alloc: Global, place: usize) -> Call {
        let mut tables = Listed::new(alloc);
        if let Some(table) = self.flushed_table(place) {
            let flushed = self.flushed(table);
            tables.push(flushed).expect(rt, "memory");
        }
        Call::Flush {
            tables,
            replay_after: 0,
            next_wal: 1,
            seq: 0,
            tick: 0,
        }
    }

    // An open of the compactor of a place.
    fn open_compactor(&mut self, place: usize) -> Call {
        self.leading = place;
        Call::OpenCompactor
    }

    fn compactor_call(&mut self, place: usize) -> Call {
        match self.below(24) {
            0 | 1 | 2 => self.open_compactor(place),
            3 | 4 => Call::Refresh,
            5 | 6 | 7 | 8 | 9 | 10 => self.schedule(),
            11 | 12 | 13 | 14 | 15 => Call::Finish {
                id: self.compaction(),
            },
            16 => Call::Fail {
                id: self.compaction(),
            },
            17 | 18 => Call::WriteManifest {
                checkpoint: self.new_id(),
            },
            19 | 20 => Call::WriteRecord,
            _ => Call::WriteState {
                checkpoint: self.new_id(),
            },
        }
    }

    fn worker_call(&mut self, rt: &impl Abort, alloc: Global, place: usize) -> Call {
        match self.below(6) {
            0 | 1 => self.claim(place),
            2 => self.upload(place),
            _ => self.report(rt, alloc, place),
        }
    }

    fn writer_call(&mut self, rt: &impl Abort, alloc: Global, place: usize) -> Call {
        match self.below(8) {
            0 => Call::OpenWriter,
            1 | 2 | 3 => self.upload(place),
            _ => self.flush(rt, alloc, place),
        }
    }

    // What a holder does: 0 is a delete, 1 a refresh, the rest are writes. Without collectors nothing is refreshed.
    fn holder_word(&mut self) -> u64 {
        match self.mix {
            Mix::Collectors => self.below(6),
            Mix::Compactors => self.below(3).saturating_mul(2),
        }
    }

    fn holder_call(&mut self) -> Call {
        match self.holder_word() {
            0 => Call::DeleteCheckpoint {
                id: self.known_id(),
            },
            1 => Call::RefreshCheckpoint {
                id: self.known_id(),
                lifetime: Some(self.below(20_000)),
            },
            _ => Call::WriteCheckpoint {
                id: self.new_id(),
                lifetime: self.lifetime(),
                source: None,
                name: None,
            },
        }
    }

    // A call that the kind of a place has.
    fn call(&mut self, rt: &impl Abort, alloc: Global, place: usize) -> Call {
        match kind_at(self.mix, place) {
            PartyKind::Writer => self.writer_call(rt, alloc, place),
            PartyKind::Holder => self.holder_call(),
            PartyKind::Collector => self.pass(),
            PartyKind::Compactor => self.compactor_call(place),
            PartyKind::Worker => self.worker_call(rt, alloc, place),
        }
    }

    // The first call of a place: writers and compactors open.
    fn first_call(&mut self, rt: &impl Abort, alloc: Global, place: usize) -> Call {
        match kind_at(self.mix, place) {
            PartyKind::Writer => Call::OpenWriter,
            PartyKind::Compactor => self.open_compactor(place),
            _ => self.call(rt, alloc, place),
        }
    }
}

// A pass over a log that deletes all candidates.
fn pass_over(pass: GcMessage) -> Call {
    Call::Pass {
        pass,
        min_age: 0,
        dry_run: false,
        filter: FilterWord::All,
    }
}

// The kind of the parties at a place.
fn kind_at(mix: Mix, place: usize) -> PartyKind {
    match mix {
        Mix::Collectors => match place {
            0 | 1 => PartyKind::Writer,
            2 | 3 => PartyKind::Holder,
            _ => PartyKind::Collector,
        },
        Mix::Compactors => match place {
            0 | 1 => PartyKind::Compactor,
            2 | 3 => PartyKind::Worker,
            4 => PartyKind::Writer,
            5 => PartyKind::Holder,
            _ => PartyKind::Collector,
        },
    }
}

// How many bursts of steps a list has after its parties came.
fn bursts(mix: Mix) -> u32 {
    match mix {
        Mix::Collectors => 40,
        Mix::Compactors => 120,
    }
}

fn push(rt: &impl Abort, events: &mut Vec<Event>, event: Event) {
    events.push(event).expect(rt, "memory");
}

// A new party comes at a place.
fn open(rt: &impl Abort, events: &mut Vec<Event>, draws: &mut Draws, db: DbPath, place: usize) {
    let party = draws.comes(place);
    let kind = kind_at(draws.mix, place);
    let open = Event::open(*events.allocator(), party, kind, db).expect(rt, "memory");
    push(rt, events, open);
}

// The party at a place starts this call.
fn start_call(rt: &impl Abort, events: &mut Vec<Event>, draws: &Draws, place: usize, call: Call) {
    let party = draws.party_at(place);
    let start = Event::start(*events.allocator(), party, call).expect(rt, "memory");
    push(rt, events, start);
}

// The party at a place starts its first call.
fn start_first(rt: &impl Abort, events: &mut Vec<Event>, draws: &mut Draws, place: usize) {
    let call = draws.first_call(rt, *events.allocator(), place);
    start_call(rt, events, draws, place, call);
}

// The party at a place starts a call.
fn start(rt: &impl Abort, events: &mut Vec<Event>, draws: &mut Draws, place: usize) {
    let call = draws.call(rt, *events.allocator(), place);
    start_call(rt, events, draws, place, call);
}

// So many steps of the party at a place.
fn steps(rt: &impl Abort, events: &mut Vec<Event>, draws: &mut Draws, place: usize, times: u64) {
    let party = draws.party_at(place);
    for _ in 0..times {
        let moment = draws.moment();
        let mark = draws.mark();
        let step = Event::Step {
            party,
            moment,
            mark,
        };
        push(rt, events, step);
    }
}

// A party stops, and a new one of its kind comes in its place.
fn replace(rt: &impl Abort, events: &mut Vec<Event>, draws: &mut Draws, db: DbPath, place: usize) {
    let party = draws.party_at(place);
    push(rt, events, Event::Stop { party });
    open(rt, events, draws, db, place);
}

// A party starts a call, makes its read, and rests from now on, so that its put may come late.
fn rest(rt: &impl Abort, events: &mut Vec<Event>, draws: &mut Draws) {
    let place = draws.any_place();
    draws.resting = place;
    start(rt, events, draws, place);
    steps(rt, events, draws, place, 3);
}

// Beside collectors: now and then a party that is replaced, one that rests, or a start.
fn restless(rt: &impl Abort, events: &mut Vec<Event>, draws: &mut Draws, db: DbPath, place: usize) {
    if draws.once_in(60) {
        replace(rt, events, draws, db, place);
    }
    if draws.once_in(15) {
        rest(rt, events, draws);
    }
    if draws.once_in(2) {
        start(rt, events, draws, place);
    }
}

// A compactor opens up to its first put of a record, the other one opens, and the collector has a pass over the records. Then the put of
// the first compactor may come late.
fn open_late(rt: &impl Abort, events: &mut Vec<Event>, draws: &mut Draws) {
    let (late, other) = if draws.once_in(2) { (0, 1) } else { (1, 0) };
    steps(rt, events, draws, late, 12);
    steps(rt, events, draws, other, 12);
    steps(rt, events, draws, COLLECTOR, 12);
    start_first(rt, events, draws, late);
    steps(rt, events, draws, late, 8);
    start_first(rt, events, draws, other);
    steps(rt, events, draws, other, 12);
    start_call(
        rt,
        events,
        draws,
        COLLECTOR,
        pass_over(GcMessage::Compactions),
    );
    steps(rt, events, draws, COLLECTOR, 24);
    steps(rt, events, draws, late, 2);
}

// The party at a place starts to finish each compaction, and half the time to fail one, for which no steps are needed.
fn end_all(rt: &impl Abort, events: &mut Vec<Event>, draws: &mut Draws, place: usize) {
    for tail in 0..COMPACTIONS {
        let id = Ulid::from_parts(10, tail.saturating_add(1) as u128);
        start_call(rt, events, draws, place, Call::Finish { id });
    }
    if draws.once_in(2) {
        let id = draws.compaction();
        start_call(rt, events, draws, place, Call::Fail { id });
    }
}

// The compactor at a place schedules a compaction, and the first worker claims it, or another one, and reports it.
fn work(rt: &impl Abort, events: &mut Vec<Event>, draws: &mut Draws, place: usize) {
    let schedule = draws.schedule();
    start_call(rt, events, draws, place, schedule);
    steps(rt, events, draws, place, 5);
    steps(rt, events, draws, WORKER, 12);
    let claim = draws.claim(WORKER);
    start_call(rt, events, draws, WORKER, claim);
    steps(rt, events, draws, WORKER, 5);
    let upload = draws.upload(WORKER);
    start_call(rt, events, draws, WORKER, upload);
    steps(rt, events, draws, WORKER, 1);
    let report = draws.report(rt, *events.allocator(), WORKER);
    start_call(rt, events, draws, WORKER, report);
    steps(rt, events, draws, WORKER, 5);
}

// The compactor at a place opens, once what it did is over.
fn open_again(rt: &impl Abort, events: &mut Vec<Event>, draws: &mut Draws, place: usize) {
    steps(rt, events, draws, place, 12);
    start_first(rt, events, draws, place);
    steps(rt, events, draws, place, 12);
}

// The compactor that leads has work done, refreshes, ends what it can, and writes the record before the manifest. Then it writes both, two
// times in three, or the other one opens.
fn settle(rt: &impl Abort, events: &mut Vec<Event>, draws: &mut Draws) {
    let place = draws.leading;
    steps(rt, events, draws, place, 12);
    work(rt, events, draws, place);
    start_call(rt, events, draws, place, Call::Refresh);
    steps(rt, events, draws, place, 6);
    end_all(rt, events, draws, place);
    start_call(rt, events, draws, place, Call::WriteRecord);
    steps(rt, events, draws, place, 5);
    if draws.once_in(3) {
        open_again(rt, events, draws, if place == 0 { 1 } else { 0 });
    } else {
        let checkpoint = draws.new_id();
        start_call(rt, events, draws, place, Call::WriteState { checkpoint });
        steps(rt, events, draws, place, 12);
    }
}

// Beside compactors: now and then an open whose put may come late, a compactor that ends what it can, or a party that is replaced and starts
// its first call, else half the time a start.
fn busy(rt: &impl Abort, events: &mut Vec<Event>, draws: &mut Draws, db: DbPath, place: usize) {
    if draws.once_in(40) {
        open_late(rt, events, draws);
    }
    if draws.once_in(40) {
        settle(rt, events, draws);
    }
    if draws.once_in(60) {
        replace(rt, events, draws, db, place);
        start_first(rt, events, draws, place);
    } else if draws.once_in(2) {
        start(rt, events, draws, place);
    }
}

// What comes next, and always some steps.
fn draw(rt: &impl Abort, events: &mut Vec<Event>, draws: &mut Draws, db: DbPath) {
    let place = draws.place();
    match draws.mix {
        Mix::Collectors => restless(rt, events, draws, db, place),
        Mix::Compactors => busy(rt, events, draws, db, place),
    }
    let times = draws.below(12).saturating_add(1);
    steps(rt, events, draws, place, times);
}

// Nothing was drawn yet.
fn draws_of(mix: Mix, seed: u64) -> Draws {
    Draws {
        mix,
        state: seed,
        moment: 1000,
        next_party: 0,
        next_id: 1,
        next_tail: 1,
        uploaded: [None; 7],
        claimed: [None; 7],
        scheduled: Ulid::from_parts(10, 2),
        leading: 0,
        resting: 0,
        parties: [0; 7],
    }
}

/// The list of a mix and a seed. The parties come, each starts a call, writers and compactors to open, and then it goes on as it is
/// drawn.
pub(crate) fn generated(rt: &impl Abort, alloc: Global, mix: Mix, seed: u64) -> Vec<Event> {
    let db = db(rt);
    let mut events = Vec::new(alloc);
    let mut draws = draws_of(mix, seed);
    for place in 0..places(mix) {
        open(rt, &mut events, &mut draws, db, place);
    }
    for place in 0..places(mix) {
        start_first(rt, &mut events, &mut draws, place);
    }
    for _ in 0..bursts(mix) {
        draw(rt, &mut events, &mut draws, db);
    }
    events
}

//! Reading the versions that a manifest's checkpoints name.
ghost use Rattle.std.specs.Prelude.{◌≡◌, ◌<◌, ◌∷◌, [], true, false, drop, length, IfOk};
ghost use Rattle.slate_state_referenced.specs.Named.{named_numbers};
ghost use Rattle.slate_ids.specs.Answers.{Gives, OrMemory};
ghost use Rattle.slate_txn_log.specs.Due.{StillDue, FaultOf, FaultRose, NoFault, WhereOut, NeverOut};
ghost use Rattle.slate_txn_log.specs.TryRead.{try_reply};
ghost use Rattle.slate_state_referenced.specs.Referenced.{number_goes, referenced_asks, referenced_due, referenced_goes};
ghost use Rattle.slate_state_referenced.specs.Referenced.{referenced_open, referenced_rank, referenced_start, rest_goes, found_goes, ReadsAll, Referenced, ReferencedBegan, ReferencedRan, ReferencedSteps};
ghost use Rattle.slate_state_referenced.specs.declared.referenced_phase.ReferencedPhase.TheVariants.{Getting};
ghost use Rattle.slate_store.specs.Machines.{GoesOn, GoesOnAlways, IsAgain, Steps};

use crate::manifest_map::ManifestMap;
use crate::number_queue::NumberQueue;
use slate_ids::{Millis, ObjectCodec, OutOfMemory, SlateDBError};
use slate_model::{Manifest, Plain};
use slate_store::{ObjectStore, Step, StoreAnswer, StoreCall, perform};
use slate_txn_log::{LogKind, Sequenced};
use std::alloc::Global;
use std::mem;

/// Where the reading stands.
#[derive(Debug, Drop)]
pub enum ReferencedPhase {
    /// The numbers that are left to get, and the manifests so far.
    Getting(NumberQueue, ManifestMap),
    /// It ended.
    Over,
}

// The manifest that was got.
fn manifest_got<C: ObjectCodec<Manifest>>(
    alloc: Global,
    sequenced: &Sequenced<Manifest, C>,
    answer: &StoreAnswer,
) -> Result<Option<Manifest>, SlateDBError>
    ensures { Gives result (try_reply (C.decoded sequenced.now.codec) answer.now) }
{
    match answer {
        StoreAnswer::Got(None) => Ok(None),
        StoreAnswer::Got(Some(object)) => {
            Ok(Some(sequenced.codec.decode(alloc, object.bytes.as_slice())?))
        }
        _ => Err(SlateDBError::StoreFault),
    }
}

// A manifest's number, and a copy of it, alone.
fn found_first(alloc: Global, n: u64, manifest: &Manifest) -> Result<ManifestMap, OutOfMemory>
    ensures { IfOk result (λ found. found ≡ (n, manifest.now) ∷ []) }
{
    ManifestMap::of(alloc, n, Plain::clone(manifest, alloc)?)
}

impl ReferencedPhase {
    /// The reading of the versions that a manifest's checkpoints name.
    pub fn start(alloc: Global, n: u64, manifest: &Manifest) -> Result<ReferencedPhase, OutOfMemory>
        ensures { IfOk result (λ phase. phase ≡ referenced_start n manifest.now) }
    {
        let left = NumberQueue::named(alloc, n, manifest.core.checkpoints.as_slice())?;
        match found_first(alloc, n, manifest) {
            Ok(found) => Ok(ReferencedPhase::Getting(left, found)),
            Err(e) => {
                drop(left);
                Err(e)
            }
        }
    }

    /// The same, and its first step: it ends at once where no other version is named.
    pub fn begin(
        alloc: Global,
        n: u64,
        manifest: &Manifest,
    ) -> Result<(ReferencedPhase, Step<ManifestMap>), OutOfMemory>
        ensures goes { IfOk result (λ begun. GoesOnAlways
            (rest_goes (named_numbers n manifest.now.core.checkpoints) ((n, manifest.now) ∷ [])) begun.0 begun.1) }
        ensures more { IfOk result (λ begun. IsAgain begun.1 → referenced_due begun.0 ≡ true) }
        ensures memory { IfOk result (λ begun. NeverOut begun.1) }
    {
        let left = NumberQueue::named(alloc, n, manifest.core.checkpoints.as_slice())?;
        match found_first(alloc, n, manifest) {
            Ok(found) => {
                let mut phase = ReferencedPhase::Over;
                let step = phase.rest(left, found);
                Ok((phase, step))
            }
            Err(e) => {
                drop(left);
                Err(e)
            }
        }
    }

    /// The call that is due. Takes no memory.
    pub fn asks<C>(&self, sequenced: &Sequenced<Manifest, C>) -> StoreCall
        ensures { result ≡ referenced_asks sequenced.now.db self.now }
    {
        let number = match self {
            ReferencedPhase::Getting(left, _) => left.first(),
            ReferencedPhase::Over => None,
        };
        match number {
            Some(n) => StoreCall::Get(LogKind::Manifest.version_path(sequenced.db, n)),
            None => StoreCall::Get(LogKind::Manifest.boundary_path(sequenced.db)),
        }
    }

    /// Whether a call is due. None is after an end, unless memory ran out, nor where no number is left.
    pub fn due(&self) -> bool
        ensures due { result ≡ referenced_due self.now }
        ensures open { result ≡ true → referenced_open self.now ≡ true }
    {
        match self {
            ReferencedPhase::Getting(left, _) => left.first().is_some(),
            ReferencedPhase::Over => false,
        }
    }

    // Goes on with the manifests so far, and the numbers that are left.
    fn rest(&mut self, left: NumberQueue, found: ManifestMap) -> Step<ManifestMap>
        ensures goes { GoesOnAlways (rest_goes left found) self.new result }
        ensures falls { IsAgain result → referenced_rank self.new ≡ length left }
        ensures due { StillDue result (referenced_open self.new) }
        ensures more { IsAgain result → referenced_due self.new ≡ true }
        ensures memory { NeverOut result }
    {
        match left.first() {
            None => {
                drop(left);
                drop(mem::replace(self, ReferencedPhase::Over));
                Step::Done(Ok(found))
            }
            Some(_) => {
                drop(mem::replace(self, ReferencedPhase::Getting(left, found)));
                Step::Again
            }
        }
    }

    // Goes on from what was read of the first number.
    fn got(
        &mut self,
        n: u64,
        left: NumberQueue,
        found: ManifestMap,
        reply: Result<Option<Manifest>, SlateDBError>,
    ) -> Step<ManifestMap>
        ensures goes { GoesOn (number_goes n (drop 1 left) found reply) (Getting left found) self.new result }
        ensures falls { IsAgain result → referenced_rank self.new ≡ length (drop 1 left) }
        ensures due { StillDue result (referenced_open self.new) }
        ensures more { IsAgain result → referenced_due self.new ≡ true }
        ensures memory { WhereOut result (self.new ≡ Getting left found) }
    {
        let mut left = left;
        let mut found = found;
        match reply {
            Err(e) => {
                if e.is_memory() {
                    drop(mem::replace(self, ReferencedPhase::Getting(left, found)));
                } else {
                    drop(left);
                    drop(found);
                    drop(mem::replace(self, ReferencedPhase::Over));
                }
                Step::Done(Err(e))
            }
            Ok(None) => {
                drop(left);
                drop(found);
                drop(mem::replace(self, ReferencedPhase::Over));
                Step::Done(Err(SlateDBError::ManifestMissing(n)))
            }
            Ok(Some(manifest)) => match found.add(n, manifest) {
                Err(_) => {
                    drop(mem::replace(self, ReferencedPhase::Getting(left, found)));
                    Step::Done(Err(SlateDBError::OutOfMemory))
                }
                Ok(()) => {
                    left.drop_first();
                    self.rest(left, found)
                }
            },
        }
    }

    /// Goes on from the answer to the get of the first number. Running out of memory leaves the phase as it was, and any other end
    /// leaves no call due.
    pub fn goes_on<C: ObjectCodec<Manifest>>(
        &mut self,
        alloc: Global,
        sequenced: &Sequenced<Manifest, C>,
        answer: &StoreAnswer,
    ) -> Step<ManifestMap>
        requires due { referenced_due self.now ≡ true }
        ensures goes { GoesOn (referenced_goes (C.decoded sequenced.now.codec) self.old answer.now)
            self.old self.new result }
        ensures falls { IsAgain result → referenced_rank self.new < referenced_rank self.old }
        ensures due { StillDue result (referenced_open self.new) }
        ensures more { IsAgain result → referenced_due self.new ≡ true }
        ensures memory { WhereOut result (self.new ≡ self.old) }
    {
        match mem::replace(self, ReferencedPhase::Over) {
            ReferencedPhase::Over => unreachable!(),
            ReferencedPhase::Getting(left, found) => match left.first() {
                None => unreachable!(),
                Some(n) => {
                    let reply = manifest_got(alloc, sequenced, answer);
                    self.got(n, left, found, reply)
                }
            },
        }
    }

    // Ends where no number is left.
    fn end(&mut self) -> Step<ManifestMap>
        requires open { referenced_open self.now ≡ true }
        requires over { referenced_due self.now ≡ false }
        ensures { GoesOnAlways (found_goes self.old) self.new result }
    {
        match mem::replace(self, ReferencedPhase::Over) {
            ReferencedPhase::Getting(left, found) => {
                drop(left);
                Step::Done(Ok(found))
            }
            ReferencedPhase::Over => unreachable!(),
        }
    }

    // Makes the one call that is due.
    fn step<C: ObjectCodec<Manifest>, S: ObjectStore>(
        &mut self,
        alloc: Global,
        sequenced: &Sequenced<Manifest, C>,
        store: &mut S,
        moment: Millis,
    ) -> Step<ManifestMap>
        requires due { referenced_due self.now ≡ true }
        ensures steps { Steps (S.told store.old) (S.told store.new)
            (referenced_asks sequenced.now.db self.old) moment
            (referenced_goes (C.decoded sequenced.now.codec) self.old) self.old self.new result }
        ensures falls { IsAgain result → referenced_rank self.new < referenced_rank self.old }
        ensures due { StillDue result (referenced_open self.new) }
        ensures more { IsAgain result → referenced_due self.new ≡ true }
        ensures fault { NoFault (C.decoded sequenced.now.codec)
            → FaultRose (S.told store.old) (S.told store.new) result }
    {
        let call = self.asks(sequenced);
        let performed = perform(alloc, store, &call, moment);
        drop(call);
        match performed {
            Ok(answer) => {
                let step = self.goes_on(alloc, sequenced, &answer);
                drop(answer);
                step
            }
            Err(_) => Step::Done(Err(SlateDBError::OutOfMemory)),
        }
    }

    /// Makes the one call that is due. Where no number is left it makes none and answers the manifests. Running out of memory
    /// leaves the phase as it was, and any other end leaves none due.
    pub fn next<C: ObjectCodec<Manifest>, S: ObjectStore>(
        &mut self,
        alloc: Global,
        sequenced: &Sequenced<Manifest, C>,
        store: &mut S,
        moment: Millis,
    ) -> Step<ManifestMap>
        requires open { referenced_open self.now ≡ true }
        ensures steps { ReferencedSteps sequenced.now.db (C.decoded sequenced.now.codec)
            (S.told store.old) (S.told store.new) moment self.old self.new result }
        ensures due { StillDue result (referenced_open self.new) }
        ensures fault { NoFault (C.decoded sequenced.now.codec) → referenced_due self.old ≡ true
            → FaultRose (S.told store.old) (S.told store.new) result }
    {
        if self.due() {
            self.step(alloc, sequenced, store, moment)
        } else {
            self.end()
        }
    }

    // Gets what is left, until it ends.
    fn drive<C: ObjectCodec<Manifest>, S: ObjectStore>(
        &mut self,
        alloc: Global,
        sequenced: &Sequenced<Manifest, C>,
        store: &mut S,
    ) -> Result<ManifestMap, SlateDBError>
        requires due { referenced_due self.now ≡ true }
        ensures read { OrMemory result
            (ReferencedBegan sequenced.now.db (C.decoded sequenced.now.codec) (S.told store.old) (S.told store.new) self.old)
            (ReferencedRan sequenced.now.db (C.decoded sequenced.now.codec) (S.told store.old) (S.told store.new) self.old result) }
        ensures fault { NoFault (C.decoded sequenced.now.codec)
            → FaultOf (S.told store.old) (S.told store.new) result }
    {
        loop {
            match self.step(alloc, sequenced, store, 0) {
                Step::Done(result) => return result,
                Step::Again => {}
            }
        }
    }

    // Reads all that is left: no call is made where nothing is.
    fn run<C: ObjectCodec<Manifest>, S: ObjectStore>(
        &mut self,
        alloc: Global,
        sequenced: &Sequenced<Manifest, C>,
        store: &mut S,
    ) -> Result<ManifestMap, SlateDBError>
        requires open { referenced_open self.now ≡ true }
        ensures read { ReadsAll sequenced.now.db (C.decoded sequenced.now.codec)
            (S.told store.old) (S.told store.new) self.old result }
        ensures fault { NoFault (C.decoded sequenced.now.codec)
            → FaultOf (S.told store.old) (S.told store.new) result }
    {
        if self.due() {
            return self.drive(alloc, sequenced, store);
        }
        match mem::replace(self, ReferencedPhase::Over) {
            ReferencedPhase::Getting(left, found) => {
                drop(left);
                Ok(found)
            }
            ReferencedPhase::Over => unreachable!(),
        }
    }
}

/// Reads the versions that a manifest's checkpoints name.
pub fn read_named<C: ObjectCodec<Manifest>, S: ObjectStore>(
    alloc: Global,
    sequenced: &Sequenced<Manifest, C>,
    store: &mut S,
    n: u64,
    manifest: &Manifest,
) -> Result<ManifestMap, SlateDBError>
    ensures read { Referenced sequenced.now.db (C.decoded sequenced.now.codec) n manifest.now
        (S.told store.old) (S.told store.new) result }
    ensures fault { NoFault (C.decoded sequenced.now.codec)
        → FaultOf (S.told store.old) (S.told store.new) result }
{
    let mut phase = ReferencedPhase::start(alloc, n, manifest)?;
    let read = phase.run(alloc, sequenced, store);
    drop(phase);
    read
}

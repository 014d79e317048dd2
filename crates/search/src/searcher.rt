// A search that is being carried out: the store that it asks, and its trail.
ghost use Rattle.std.specs.Prelude.{◌≡◌, ◌<◌, true, false, is_ok, ◌&&◌, length, IfOk};
ghost use Rattle.file_system.specs.Store.{told, filled};
ghost use Rattle.file_system.specs.Tree.{Tree};
ghost use Rattle.search.specs.Search.{Trail, kind_asked, manifest_at, on_trail, is_file};
ghost use Rattle.search.specs.Memory.{Holds};
ghost use Rattle.search.specs.Asking.{store_of, along, Over, Asked, Answered, Read, Written};

use crate::error::Refusal;
use crate::trail::{Presence, Reply, Sort, Step, has_room, known, known_kind, note};
use file_system::{FileSystem, Kind, Part};
use list::List;

/// A store that is handed over for a search. Its field is private, so that the compiler shows that it is asked by the methods
/// of `Searcher` alone.
#[derive(Drop)]
pub struct Source<'s, S> {
    store: &'s mut S,
}

impl<'s, S: FileSystem> Source<'s, S> {
    /// A store, handed over until the search is done.
    pub fn new(store: &'s mut S) -> Source<'s, S>
        ensures of_the_store { Over store.entry result }
    {
        Source { store }
    }
}

/// Asks a store, and notes each question once on a trail that is held in two lists over lent memory.
// Each reference has a lifetime of its own, and each stands here itself and not in a struct of several: else the checker would
// lose at the end what the lent slices hold. For the same reason no function makes this struct, and a candidate path, which is
// asked about while the searcher is borrowed, is no field.
#[derive(Drop)]
pub struct Searcher<'s, 't, 'u, 'm, 'n, S> {
    pub source: Source<'s, S>,
    pub steps: &'t mut List<'m, Step>,
    pub bytes: &'u mut List<'n, u8>,
}

impl<S: FileSystem> Searcher<'_, '_, '_, '_, '_, S> {
    /// Asks the kind of a path. A question that is on the trail is answered from there, and where there is no room for a
    /// new one the store is not asked.
    pub fn ask_kind(&mut self, path: &[u8]) -> Result<Kind, Refusal>
        ensures noted_and_answered { S.sound (store_of self.old) → (qs : Trail) → Holds (S.tree (store_of self.old)) (along self.old) qs → Answered (S.tree (store_of self.old)) (along self.old) (along self.new) path.now result qs }
        ensures refused_before_the_store_is_asked { is_ok result ≡ false → store_of self.new ≡ store_of self.old }
        ensures asked_once { (t : Tree) (qs : Trail) → Holds t (along self.old) qs → on_trail qs (kind_asked path.now) ≡ true → store_of self.new ≡ store_of self.old }
        ensures has_a_step { IfOk result (λ _. 0 < (along self.new).steps.len) }
        ensures only_asked { Asked S.tree S.space S.sound self.old self.new }
    {
        if let Some(kind) = known_kind(self.steps, self.bytes, path) {
            return Ok(kind);
        }
        if !has_room(self.steps, self.bytes, path) {
            return Err(Refusal::TrailFull);
        }
        let kind = self.source.store.kind(path);
        note(self.steps, self.bytes, path, Reply::Kind(kind));
        Ok(kind)
    }

    /// Reads the manifest at that path, as far as it fits into the lent bytes; none where no file is there. It is noted once. One
    /// of which the trail says that it is absent is not sought again, and where there is no room for a new question the store is
    /// not asked.
    pub fn read_manifest(
        &mut self,
        manifest: &[u8],
        into: &mut [u8],
    ) -> Result<Option<Part>, Refusal>
        ensures noted_and_told { S.sound (store_of self.old) → (qs : Trail) → Holds (S.tree (store_of self.old)) (along self.old) qs → Read (S.tree (store_of self.old)) (along self.old) (along self.new) manifest.now (length into.old) result qs }
        ensures written { S.sound (store_of self.old) → IfOk result (λ told. Written (S.tree (store_of self.old) manifest.now) into.old into.new told) }
        ensures refused_before_the_store_is_asked { is_ok result ≡ false → (store_of self.new ≡ store_of self.old) × (into.new ≡ into.old) }
        ensures has_a_step { IfOk result (λ _. 0 < (along self.new).steps.len) }
        ensures only_asked { Asked S.tree S.space S.sound self.old self.new }
    {
        match known(self.steps, self.bytes, Sort::Manifest, manifest) {
            Some(Reply::Manifest(Presence::Absent)) => return Ok(None),
            Some(_) => return Ok(self.source.store.read(manifest, 0, into)),
            None => {}
        }
        if !has_room(self.steps, self.bytes, manifest) {
            return Err(Refusal::TrailFull);
        }
        let part = self.source.store.read(manifest, 0, into);
        note(
            self.steps,
            self.bytes,
            manifest,
            Reply::Manifest(Presence::of(&part)),
        );
        Ok(part)
    }

    /// Whether the trail says that a manifest stands at a path.
    pub fn knows_manifest(&self, path: &[u8]) -> bool
        ensures told_by_the_trail { (t : Tree) (qs : Trail) → Holds t (along self.now) qs → result ≡ (on_trail qs (manifest_at path.now) && is_file (t path.now)) }
        ensures by_a_step { result ≡ true → 0 < (along self.now).steps.len }
    {
        known(self.steps, self.bytes, Sort::Manifest, path)
            == Some(Reply::Manifest(Presence::Present))
    }

    /// Reads a manifest again that stands on the trail, which keeps no bytes of it. Of an empty trail nothing is read.
    pub fn read_again(&mut self, path: &[u8], into: &mut [u8]) -> Option<Part>
        ensures told { S.sound (store_of self.old) → 0 < (along self.old).steps.len → result ≡ told (S.tree (store_of self.old) path.now) 0 (length into.old) }
        ensures written { S.sound (store_of self.old) → 0 < (along self.old).steps.len → into.new ≡ filled (S.tree (store_of self.old) path.now) 0 into.old }
        ensures same_trail { along self.new ≡ along self.old }
        ensures only_asked { Asked S.tree S.space S.sound self.old self.new }
    {
        if self.steps.len() == 0 {
            return None;
        }
        self.source.store.read(path, 0, into)
    }
}

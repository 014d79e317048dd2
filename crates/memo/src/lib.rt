//! A layer over any store that remembers the kinds of up to 64 paths, and never tells a stale one.
#![tactic(auto)]

ghost use Rattle.std.specs.Prelude.{◌≡◌, ◌≤◌, true, List, [], length, Some};
ghost use Rattle.file_system.specs.Tree.{nothing, directory, file, kind_of};
ghost use Rattle.file_system.specs.Store.{told, filled, addition, Removal, IfAccepted};
ghost use Rattle.memo.specs.Memo.{Item, below, kinds_of, remembered, recalled, knows, latest, after_asking, after_all, AllNew, after_change, memo_sound};

mod record;
mod remembered_kinds;

use crate::remembered_kinds::RememberedKinds;
use file_system::{FileSystem, Kind, Part, Refusal, is_storable};

/// The store below and what is remembered of it; all changes of the store go through this layer.
#[derive(Drop)]
pub struct Memo<S> {
    store: S,
    kinds: RememberedKinds,
}

impl<S: FileSystem> Memo<S> {
    /// A layer that remembers nothing yet.
    pub fn new(store: S) -> Memo<S>
        ensures over_the_store { below result ≡ store }
        ensures remembers_nothing { remembered (kinds_of result) ≡ [] }
        ensures is_sound { S.sound store → memo_sound (S.sound (below result)) (S.tree (below result)) (kinds_of result) }
        ensures keeps_the_latest_64 { (qs : List Item) → AllNew (remembered (kinds_of result)) qs → after_all (remembered (kinds_of result)) qs ≡ latest qs }
    {
        Memo {
            store,
            kinds: RememberedKinds::new(),
        }
    }
}

// The tree and the space are those of the store below. The layer is sound where the store is, and every remembered
// kind agrees with its tree. Each method adds what it does to the remembered kinds, and repeats the trait's promises,
// since clauses of its own stand in place of those. For the same reason the trait has two additions and not one with an
// optional content below two provided methods: those would promise nothing of what a layer remembers.
impl<S: FileSystem> FileSystem for Memo<S> {
    ghost tree = { λ m. S.tree (below m) };

    ghost space = { λ m. S.space (below m) };

    ghost sound = { λ m. memo_sound (S.sound (below m)) (S.tree (below m)) (kinds_of m) };

    ghost holds_only_storable_paths = { λ m s. S.holds_only_storable_paths (below m) s.0 };

    // A remembered path is answered without a question below. A path that no store can hold is not remembered, since
    // a record has no room for a longer one.
    fn kind(&mut self, path: &[u8]) -> Kind
        ensures follows_the_tree { memo_sound (S.sound (below self.old)) (S.tree (below self.old)) (kinds_of self.old) → result ≡ kind_of (S.tree (below self.old) path.now) }
        ensures same_tree { memo_sound (S.sound (below self.old)) (S.tree (below self.old)) (kinds_of self.old) → S.tree (below self.new) ≡ S.tree (below self.old) }
        ensures same_space { memo_sound (S.sound (below self.old)) (S.tree (below self.old)) (kinds_of self.old) → S.space (below self.new) ≡ S.space (below self.old) }
        ensures stays_sound { memo_sound (S.sound (below self.old)) (S.tree (below self.old)) (kinds_of self.old) → memo_sound (S.sound (below self.new)) (S.tree (below self.new)) (kinds_of self.new) }
        ensures remembered_without_asking { knows (remembered (kinds_of self.old)) path.now ≡ true → (below self.new ≡ below self.old) × (recalled (remembered (kinds_of self.old)) path.now ≡ Some result) }
        ensures first_in_first_out { remembered (kinds_of self.new) ≡ after_asking (remembered (kinds_of self.old)) path.now result }
        ensures at_most_64 { length (remembered (kinds_of self.new)) ≤ 64 }
    {
        if let Some(kind) = self.kinds.recall(path) {
            return kind;
        }
        let kind = self.store.kind(path);
        if is_storable(path) {
            self.kinds.remember(path, kind);
        }
        kind
    }

    // Contents are not remembered.
    fn read(&mut self, path: &[u8], from: usize, into: &mut [u8]) -> Option<Part>
        ensures follows_the_tree { memo_sound (S.sound (below self.old)) (S.tree (below self.old)) (kinds_of self.old) → result ≡ told (S.tree (below self.old) path.now) from (length into.old) }
        ensures writes_only_what_it_tells { memo_sound (S.sound (below self.old)) (S.tree (below self.old)) (kinds_of self.old) → into.new ≡ filled (S.tree (below self.old) path.now) from into.old }
        ensures same_tree { memo_sound (S.sound (below self.old)) (S.tree (below self.old)) (kinds_of self.old) → S.tree (below self.new) ≡ S.tree (below self.old) }
        ensures same_space { memo_sound (S.sound (below self.old)) (S.tree (below self.old)) (kinds_of self.old) → S.space (below self.new) ≡ S.space (below self.old) }
        ensures stays_sound { memo_sound (S.sound (below self.old)) (S.tree (below self.old)) (kinds_of self.old) → memo_sound (S.sound (below self.new)) (S.tree (below self.new)) (kinds_of self.new) }
        ensures remembers_the_same { kinds_of self.new ≡ kinds_of self.old }
    {
        self.store.read(path, from, into)
    }

    // An accepted change alters that path alone, so that only its kind would be stale.
    fn add_directory(&mut self, path: &[u8]) -> Result<(), Refusal>
        ensures refused_by_the_checks { memo_sound (S.sound (below self.old)) (S.tree (below self.old)) (kinds_of self.old) → result ≡ addition (S.tree (below self.old)) (S.space (below self.old)) path.now 0 }
        ensures changes_that_path_alone { memo_sound (S.sound (below self.old)) (S.tree (below self.old)) (kinds_of self.old) → IfAccepted result path.now directory (S.tree (below self.old)) (S.tree (below self.new)) (S.space (below self.old)) (S.space (below self.new)) }
        ensures stays_sound { memo_sound (S.sound (below self.old)) (S.tree (below self.old)) (kinds_of self.old) → memo_sound (S.sound (below self.new)) (S.tree (below self.new)) (kinds_of self.new) }
        ensures forgets_that_path_alone { remembered (kinds_of self.new) ≡ after_change result path.now (remembered (kinds_of self.old)) }
    {
        self.store.add_directory(path)?;
        self.kinds.forget(path);
        Ok(())
    }

    // As for a directory.
    fn add_file(&mut self, path: &[u8], content: &[u8]) -> Result<(), Refusal>
        ensures refused_by_the_checks { memo_sound (S.sound (below self.old)) (S.tree (below self.old)) (kinds_of self.old) → result ≡ addition (S.tree (below self.old)) (S.space (below self.old)) path.now (length content.now) }
        ensures changes_that_path_alone { memo_sound (S.sound (below self.old)) (S.tree (below self.old)) (kinds_of self.old) → IfAccepted result path.now (file content.now) (S.tree (below self.old)) (S.tree (below self.new)) (S.space (below self.old)) (S.space (below self.new)) }
        ensures stays_sound { memo_sound (S.sound (below self.old)) (S.tree (below self.old)) (kinds_of self.old) → memo_sound (S.sound (below self.new)) (S.tree (below self.new)) (kinds_of self.new) }
        ensures forgets_that_path_alone { remembered (kinds_of self.new) ≡ after_change result path.now (remembered (kinds_of self.old)) }
    {
        self.store.add_file(path, content)?;
        self.kinds.forget(path);
        Ok(())
    }

    // As for a directory.
    fn remove(&mut self, path: &[u8]) -> Result<(), Refusal>
        ensures refused_by_the_checks { memo_sound (S.sound (below self.old)) (S.tree (below self.old)) (kinds_of self.old) → Removal (S.tree (below self.old)) path.now result }
        ensures changes_that_path_alone { memo_sound (S.sound (below self.old)) (S.tree (below self.old)) (kinds_of self.old) → IfAccepted result path.now nothing (S.tree (below self.old)) (S.tree (below self.new)) (S.space (below self.old)) (S.space (below self.new)) }
        ensures stays_sound { memo_sound (S.sound (below self.old)) (S.tree (below self.old)) (kinds_of self.old) → memo_sound (S.sound (below self.new)) (S.tree (below self.new)) (kinds_of self.new) }
        ensures forgets_that_path_alone { remembered (kinds_of self.new) ≡ after_change result path.now (remembered (kinds_of self.old)) }
    {
        self.store.remove(path)?;
        self.kinds.forget(path);
        Ok(())
    }
}

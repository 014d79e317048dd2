// A store that counts the questions that it is asked, where a test can see the count from above any layer.
ghost use Rattle.std.specs.Prelude.{◌≡◌};

use file_system::{FileSystem, Kind, Part, Refusal};
use std::cell::Cell;

#[derive(Drop)]
pub(crate) struct Counting<'c, S> {
    store: S,
    asked: &'c Cell<usize>,
}

impl<'c, S: FileSystem> Counting<'c, S> {
    pub(crate) fn new(store: S, asked: &'c Cell<usize>) -> Counting<'c, S>
        ensures over_the_store { result.store ≡ store }
    {
        Counting { store, asked }
    }
}

// Its meaning is that of the store below; the count is no part of it.
impl<'c, S: FileSystem> FileSystem for Counting<'c, S> {
    ghost tree = { λ c. S.tree c.store };

    ghost space = { λ c. S.space c.store };

    ghost sound = { λ c. S.sound c.store };

    ghost holds_only_storable_paths = { λ c. S.holds_only_storable_paths c.store };

    fn kind(&mut self, path: &[u8]) -> Kind {
        self.asked.set(self.asked.get().saturating_add(1));
        self.store.kind(path)
    }

    fn read(&mut self, path: &[u8], from: usize, into: &mut [u8]) -> Option<Part> {
        self.asked.set(self.asked.get().saturating_add(1));
        self.store.read(path, from, into)
    }

    fn add_directory(&mut self, path: &[u8]) -> Result<(), Refusal> {
        self.store.add_directory(path)
    }

    fn add_file(&mut self, path: &[u8], content: &[u8]) -> Result<(), Refusal> {
        self.store.add_file(path, content)
    }

    fn remove(&mut self, path: &[u8]) -> Result<(), Refusal> {
        self.store.remove(path)
    }
}

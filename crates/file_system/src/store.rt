// What every store answers: two questions, two additions and a removal, by the tree that it means.
ghost use Rattle.std.specs.Prelude.{◌≡◌, false, length, Some};
ghost use Rattle.file_system.specs.Tree.{Path, Tree, nothing, directory, file, kind_of, storable};
ghost use Rattle.file_system.specs.Store.{number_of, refusal_text, kind_text, Space, told, filled, addition, Removal, IfAccepted};

use path::is_normal;
use std::error::Error;
use std::fmt;

/// What a path may be in a store.
#[derive(Clone, Copy, PartialEq, Eq, Debug, Default)]
pub enum Kind {
    #[default]
    Nothing,
    Directory,
    File,
}

impl fmt::Display for Kind {
    ghost output = { λ kind. Some (kind_text kind) };

    fn fmt<W: fmt::Write>(&self, f: &mut fmt::Formatter<W>) -> fmt::Result {
        f.write_str(match self {
            Kind::Nothing => "nothing",
            Kind::Directory => "directory",
            Kind::File => "file",
        })
    }
}

/// What a read gave: the count of bytes written, and the length of the whole file.
#[derive(Clone, Copy, PartialEq, Eq, Debug)]
pub struct Part {
    pub count: usize,
    pub length: usize,
}

/// Why an addition or a removal is refused, with its number; the first check that fails tells.
#[derive(Clone, Copy, PartialEq, Eq, Debug)]
pub enum Refusal {
    /// The path is not normal or has more than 1,024 bytes, or the content has more than 65,535.
    NotAdmissible = 12,
    /// The path is `/`, or its parent is no directory.
    NoParent = 13,
    /// What is at the path is in the way: an addition found something there, a removal found nothing or a directory
    /// with something in it.
    Conflict = 14,
    /// The store has no space for it.
    NoSpace = 15,
}

impl Refusal {
    pub fn number(self) -> u8
        ensures number { result ≡ number_of self }
    {
        self as u8
    }
}

impl fmt::Display for Refusal {
    ghost output = { λ refusal. Some (refusal_text refusal) };

    fn fmt<W: fmt::Write>(&self, f: &mut fmt::Formatter<W>) -> fmt::Result {
        f.write_str(match self {
            Refusal::NotAdmissible => "not-admissible",
            Refusal::NoParent => "no-parent",
            Refusal::Conflict => "conflict",
            Refusal::NoSpace => "no-space",
        })
    }
}

impl Error for Refusal {}

/// Whether a store can hold the path: it is normal and has at most 1,024 bytes.
pub fn is_storable(path: &[u8]) -> bool
    ensures storable_path { result ≡ storable path.now }
{
    is_normal(path) && path.len() <= 1024
}

/// A store means a tree, and says yes or no to space for a path and a length. Every promise is made of a sound state,
/// and every call keeps a sound state sound. Soundness is a premise and no ghost field: a table is not sound between the
/// parts of an addition, and a layer's depends on the store below.
pub trait FileSystem {
    ghost tree: { Self → Tree };

    ghost space: { Self → Space };

    ghost sound: { Self → Type 0 };

    /// The kind of a path. A path that no store can hold is nothing.
    fn kind(&mut self, path: &[u8]) -> Kind
        ensures follows_the_tree { sound self.old → result ≡ kind_of (tree self.old path.now) }
        ensures same_tree { sound self.old → tree self.new ≡ tree self.old }
        ensures same_space { sound self.old → space self.new ≡ space self.old }
        ensures stays_sound { sound self.old → sound self.new };

    /// A file's bytes from a place on, as far as they fit into the part that is given; none where there is no file.
    fn read(&mut self, path: &[u8], from: usize, into: &mut [u8]) -> Option<Part>
        ensures follows_the_tree { sound self.old → result ≡ told (tree self.old path.now) from (length into.old) }
        ensures writes_only_what_it_tells { sound self.old → into.new ≡ filled (tree self.old path.now) from into.old }
        ensures same_tree { sound self.old → tree self.new ≡ tree self.old }
        ensures same_space { sound self.old → space self.new ≡ space self.old }
        ensures stays_sound { sound self.old → sound self.new };

    /// Makes a path a directory.
    fn add_directory(&mut self, path: &[u8]) -> Result<(), Refusal>
        ensures refused_by_the_checks { sound self.old → result ≡ addition (tree self.old) (space self.old) path.now 0 }
        ensures changes_that_path_alone { sound self.old → IfAccepted result path.now directory (tree self.old) (tree self.new) (space self.old) (space self.new) }
        ensures stays_sound { sound self.old → sound self.new };

    /// Makes a path a file with a content of at most 65,535 bytes.
    fn add_file(&mut self, path: &[u8], content: &[u8]) -> Result<(), Refusal>
        ensures refused_by_the_checks { sound self.old → result ≡ addition (tree self.old) (space self.old) path.now (length content.now) }
        ensures changes_that_path_alone { sound self.old → IfAccepted result path.now (file content.now) (tree self.old) (tree self.new) (space self.old) (space self.new) }
        ensures stays_sound { sound self.old → sound self.new };

    /// Takes a file away, or a directory with nothing directly in it.
    fn remove(&mut self, path: &[u8]) -> Result<(), Refusal>
        ensures refused_by_the_checks { sound self.old → Removal (tree self.old) path.now result }
        ensures changes_that_path_alone { sound self.old → IfAccepted result path.now nothing (tree self.old) (tree self.new) (space self.old) (space self.new) }
        ensures stays_sound { sound self.old → sound self.new };

    // A law of every store: a path that is not normal, or has more than 1,024 bytes, is nothing.
    ghost holds_only_storable_paths: { (store : Self) → sound store → (p : Path) → storable p ≡ false → tree store p ≡ nothing };
}

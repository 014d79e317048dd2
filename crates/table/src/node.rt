// What a path of a table holds.
ghost use Rattle.std.specs.Prelude.{◌≡◌, ◌+◌, ◌++◌, length, take, drop};
ghost use Rattle.file_system.specs.Tree.{kind_of};
ghost use Rattle.file_system.specs.Store.{count_of};
ghost use Rattle.table.specs.Table.{node_of, tree_of};
ghost use Rattle.table.specs.Sound.{Sorted};
ghost use Rattle.table.specs.Parts.{meant};

use crate::entry::Entry;
use crate::order::find;
use file_system::Kind;
use list::{after, front};

/// What a path holds, with a file's content where it stands. The three cases are those of the specification's nodes; an
/// option of two would say nothing more plainly.
#[derive(Clone, Copy)]
pub enum Node<'b> {
    Nothing,
    Directory,
    File(&'b [u8]),
}

impl From<Node<'_>> for Kind {
    ghost from_gives = { λ node kind. kind ≡ kind_of (meant node) };

    fn from(node: Node) -> Kind {
        match node {
            Node::Nothing => Kind::Nothing,
            Node::Directory => Kind::Directory,
            Node::File(_) => Kind::File,
        }
    }
}

// What a path holds; `/` is a directory without an entry.
pub(crate) fn node_at<'b>(entries: &[Entry], bytes: &'b [u8], path: &[u8]) -> Node<'b>
    ensures follows_the_tree { Sorted bytes.now entries.now → meant result ≡ tree_of entries.now bytes.now path.now }
{
    if path == b"/".as_slice() {
        return Node::Directory;
    }
    match find(entries, bytes, path) {
        None => Node::Nothing,
        Some(e) => node_of(bytes, e),
    }
}

// What an entry stands for.
fn node_of(bytes: &[u8], e: Entry) -> Node<'_>
    ensures node { meant result ≡ node_of bytes.now e }
{
    match e.content {
        None => Node::Directory,
        Some(length) => Node::File(front(after(after(bytes, e.start), e.path), length)),
    }
}

// Copies what fits of the content from a place on, and tells how many bytes those are.
pub(crate) fn copy_part(content: &[u8], from: usize, into: &mut [u8]) -> usize
    ensures what_fits { result ≡ count_of content.now from (length into.old) }
    ensures rest_as_before { into.new ≡ take (length into.old) (drop from content.now) ++ drop (count_of content.now from (length into.old)) into.old }
{
    let part = front(after(content, from), into.len());
    let count = part.len();
    into[..count].copy_from_slice(part);
    count
}

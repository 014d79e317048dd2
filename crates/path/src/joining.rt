// Joining a subpath to a directory, in a buffer that the caller lends.

ghost use Rattle.std.specs.Prelude.{◌≡◌, ℕ, ◌+◌, ◌<◌, ◌≤◌, min, true, [], ◌∷◌, ◌++◌, length, take, Option, Some, None, Ok, OnOk, OnErr};
ghost use Rattle.list.specs.Held.{held, capacity};
ghost use Rattle.path.specs.Path.{written, components, normal, without_last, split, put, names, too_long, within, walk, itself, joining};
ghost use Rattle.path.specs.Report.{Reports, OfPath, KeptFrom};

use crate::components::{is_normal, is_normal_text, parent};
use crate::pieces::{cut, is_same, is_up};
use list::{Full, List};
use text::{Bytes, Part, Plain, append};

/// The path grew over the limit.
#[derive(Clone, Copy, PartialEq, Eq, Debug)]
pub struct TooLong;

impl From<Full> for TooLong {
    fn from(_full: Full) -> TooLong {
        TooLong
    }
}

// The most bytes that a path may have.
const LONGEST: usize = 1024;

/// Joins a subpath to a directory, writes the path at the start of `into`, and tells its length; none where the subpath
/// names nothing, or the directory is not normal.
///
/// The subpath is cut at its slashes: empty pieces and `.` are dropped, `..` takes the last component off (at `/`,
/// `/` remains), and others are put on. A normal subpath that begins with a slash stands for itself; an empty one,
/// and another that begins with a slash, name nothing. So does every subpath if the directory is not normal.
///
/// A path may have at most 1,024 bytes, and at most as many as `into` holds. A subpath that stands for itself is held
/// to that; otherwise the directory is, and then the path after each piece. The first that is over is too long.
///
/// If nothing is named, `into` stays as it is. Otherwise its bytes behind the path, or all if that is too long, are
/// scratch up to 1,024, and up to the length of the directory, a slash and the subpath; those from there on stay.
pub fn join(directory: &[u8], subpath: &[u8], into: &mut [u8]) -> Result<Option<usize>, TooLong>
    ensures by_components { Reports result into.new (joining (min 1024 (length into.old)) directory.now subpath.now) }
    ensures normal_result { OfPath result into.new (λ p. normal p ≡ true) }
    ensures short_result { OfPath result into.new (λ p. length p ≤ 1024) }
    ensures kept_behind { KeptFrom (length directory.now + 1 + length subpath.now) into.old into.new }
    ensures kept_from_1024_on { KeptFrom 1024 into.old into.new }
    ensures kept_if_nothing { result ≡ Ok None → into.new ≡ into.old }
{
    join_text(directory, Plain::new(subpath), into)
}

/// The same of a subpath that is given byte by byte: it may have any length, and is not held anywhere.
///
/// It goes through the subpath once to count it, and through each piece three times at most.
pub fn join_text<B: Bytes>(
    directory: &[u8],
    subpath: B,
    into: &mut [u8],
) -> Result<Option<usize>, TooLong>
    ensures by_components { Reports result into.new (joining (min 1024 (length into.old)) directory.now (B.to_come subpath)) }
    ensures normal_result { OfPath result into.new (λ p. normal p ≡ true) }
    ensures short_result { OfPath result into.new (λ p. length p ≤ 1024) }
    ensures kept_behind { KeptFrom (length directory.now + 1 + length (B.to_come subpath)) into.old into.new }
    ensures kept_from_1024_on { KeptFrom 1024 into.old into.new }
    ensures kept_if_nothing { result ≡ Ok None → into.new ≡ into.old }
{
    let limit = into.len().min(LONGEST);
    join_within(directory, Part::whole(subpath), &mut into[..limit])
}

// Joins in a room that is as long as a path may be.
fn join_within<B: Bytes>(
    directory: &[u8],
    subpath: Part<B>,
    room: &mut [u8],
) -> Result<Option<usize>, TooLong>
    ensures by_components { Reports result room.new (joining (length room.old) directory.now (⟦<Part<B> as Bytes>⟧.to_come subpath)) }
    ensures kept_behind { KeptFrom (length directory.now + 1 + length (⟦<Part<B> as Bytes>⟧.to_come subpath)) room.old room.new }
    ensures kept_if_nothing { result ≡ Ok None → room.new ≡ room.old }
{
    if !is_normal(directory) {
        return Ok(None);
    }
    let mut rest = subpath;
    match rest.next() {
        None => Ok(None),
        Some(b'/') => put_itself(subpath, room),
        Some(_) => walk_pieces(directory, subpath, room),
    }
}

// A subpath that begins with a slash stands for itself, if it is normal.
fn put_itself<B: Bytes>(subpath: Part<B>, room: &mut [u8]) -> Result<Option<usize>, TooLong>
    ensures by_components { Reports result room.new (itself (length room.old) (⟦<Part<B> as Bytes>⟧.to_come subpath)) }
    ensures kept_behind { KeptFrom (length (⟦<Part<B> as Bytes>⟧.to_come subpath)) room.old room.new }
    ensures kept_if_nothing { result ≡ Ok None → room.new ≡ room.old }
{
    if !is_normal_text(subpath) {
        return Ok(None);
    }
    let mut path = List::new(room);
    append(&mut path, subpath)?;
    Ok(Some(path.len()))
}

// Puts the pieces of a subpath in turn on the path of a normal directory.
fn walk_pieces<B: Bytes>(
    directory: &[u8],
    subpath: Part<B>,
    room: &mut [u8],
) -> Result<Option<usize>, TooLong>
    requires { normal directory.now ≡ true }
    ensures by_components { Reports result room.new (within (length room.old) directory.now (walk (length room.old) (components directory.now) (split (⟦<Part<B> as Bytes>⟧.to_come subpath)))) }
    ensures kept_behind { KeptFrom (length directory.now + 1 + length (⟦<Part<B> as Bytes>⟧.to_come subpath)) room.old room.new }
{
    let mut path = List::new(room);
    path.append(directory)?;
    put_pieces(&mut path, subpath)?;
    Ok(Some(path.len()))
}

// Puts the pieces of a subpath in turn on the path, as long as there is room. That the path is normal is required and no
// fact of its type: between a slash and the component behind it, it is not.
fn put_pieces<B: Bytes>(path: &mut List<u8>, subpath: Part<B>) -> Result<(), Full>
    requires { normal (held path.old) ≡ true }
    ensures by_components { OnOk result (walk (capacity path.old) (components (held path.old)) (split (⟦<Part<B> as Bytes>⟧.to_come subpath)) ≡ names (held path.new)) }
    ensures over { OnErr result (walk (capacity path.old) (components (held path.old)) (split (⟦<Part<B> as Bytes>⟧.to_come subpath)) ≡ too_long) }
    ensures kept_behind { KeptFrom (path.old.len + 1 + length (⟦<Part<B> as Bytes>⟧.to_come subpath)) path.old.items.now path.new.items.now }
    ensures same_capacity { capacity path.new ≡ capacity path.old }
    ensures same_memory { path.new.items.ghost_name ≡ path.old.items.ghost_name }
{
    let mut left = Some(subpath);
    while let Some(text) = left {
        let (piece, behind) = cut(text);
        put_piece(path, piece)?;
        left = behind;
    }
    Ok(())
}

// Puts one piece on the path, if there is room for it.
fn put_piece<B: Bytes>(path: &mut List<u8>, piece: Part<B>) -> Result<(), Full>
    requires { normal (held path.old) ≡ true }
    ensures by_components { OnOk result (held path.new ≡ written (put (components (held path.old)) (⟦<Part<B> as Bytes>⟧.to_come piece))) }
    ensures over { OnErr result (capacity path.old < length (written (put (components (held path.old)) (⟦<Part<B> as Bytes>⟧.to_come piece)))) }
    ensures longer_by_piece { OnOk result (path.new.len ≤ path.old.len + 1 + length (⟦<Part<B> as Bytes>⟧.to_come piece)) }
    ensures kept_if_full { OnErr result (path.new.items.now ≡ path.old.items.now) }
    ensures kept_behind { KeptFrom (path.old.len + 1 + length (⟦<Part<B> as Bytes>⟧.to_come piece)) path.old.items.now path.new.items.now }
    ensures same_capacity { capacity path.new ≡ capacity path.old }
    ensures same_memory { path.new.items.ghost_name ≡ path.old.items.ghost_name }
{
    if is_same(piece) {
        return Ok(());
    }
    if is_up(piece) {
        path.truncate(length_above(path.as_slice()));
        return Ok(());
    }
    push(path, piece)
}

// The length of a normal path without its last component.
fn length_above(path: &[u8]) -> usize
    requires { normal path.now ≡ true }
    ensures inside { result ≤ length path.now }
    ensures front { take result path.now ≡ written (without_last (components path.now)) }
{
    parent(path).unwrap_or(path).len()
}

// Puts a component behind a normal path, if there is room for it and its slash.
fn push<B: Bytes>(path: &mut List<u8>, component: Part<B>) -> Result<(), Full>
    requires { normal (held path.old) ≡ true }
    ensures by_components { OnOk result (held path.new ≡ written (components (held path.old) ++ ⟦<Part<B> as Bytes>⟧.to_come component ∷ [])) }
    ensures over { OnErr result (capacity path.old < length (written (components (held path.old) ++ ⟦<Part<B> as Bytes>⟧.to_come component ∷ []))) }
    ensures longer_by_component { OnOk result (path.new.len ≤ path.old.len + 1 + length (⟦<Part<B> as Bytes>⟧.to_come component)) }
    ensures kept_if_full { OnErr result (path.new.items.now ≡ path.old.items.now) }
    ensures kept_behind { KeptFrom (path.old.len + 1 + length (⟦<Part<B> as Bytes>⟧.to_come component)) path.old.items.now path.new.items.now }
    ensures same_capacity { capacity path.new ≡ capacity path.old }
    ensures same_memory { path.new.items.ghost_name ≡ path.old.items.ghost_name }
{
    if path.len() == 1 {
        // `/` has its slash already.
        return append(path, component);
    }
    if component.bytes_left() >= path.room() {
        return Err(Full);
    }
    path.push(b'/')?;
    append(path, component)
}

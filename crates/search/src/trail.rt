// The trail of a lookup: each question once, in order of first need. It is a list of steps and a list of the bytes of their
// paths, both over lent memory.
ghost use Rattle.std.specs.Prelude.{◌≡◌, ◌+◌, ◌<◌, ◌≤◌, [], ◌∷◌, ◌++◌, length, if◌then◌else◌, Some, None, IfSome, ◌&&◌, nat_lt, nat_le};
ghost use Rattle.list.specs.Held.{capacity};
ghost use Rattle.file_system.specs.Tree.{Tree, kind_of};
ghost use Rattle.search.specs.Search.{Question, Trail, kind_asked, path_of, on_trail, room};
ghost use Rattle.search.specs.Memory.{in_lists, kind_in, presence_told, path_at, answers, question_of, reply_of, limits_of, told, Holds, Grew, LaidOut};

use file_system::{Kind, Part};
use list::{List, after, front};

/// Whether a manifest is there, which is all that a step keeps of it.
#[derive(Clone, Copy, PartialEq, Eq, Debug)]
pub enum Presence {
    Absent,
    Present,
}

impl Presence {
    // What a read tells of it.
    pub(crate) fn of(part: &Option<Part>) -> Presence
        ensures by_the_read { result ≡ presence_told part.now }
    {
        match part {
            Some(_) => Presence::Present,
            None => Presence::Absent,
        }
    }
}

/// What a store replied.
#[derive(Clone, Copy, PartialEq, Eq, Debug)]
pub enum Reply {
    /// To a question of a path's kind.
    Kind(Kind),
    /// To a read of a manifest.
    Manifest(Presence),
}

impl Reply {
    // The kind that it tells, if it is one.
    fn kind(self) -> Option<Kind>
        ensures if_it_is_one { result ≡ kind_in self }
    {
        match self {
            Reply::Kind(kind) => Some(kind),
            Reply::Manifest(_) => None,
        }
    }
}

/// One question: the place of its path among the trail's bytes, and the reply, which tells its sort. It has a place and no
/// slice, since there is no heap and the lent bytes are still written.
#[derive(Clone, Copy, PartialEq, Eq, Debug)]
pub struct Step {
    pub start: usize,
    pub length: usize,
    pub reply: Reply,
}

impl Step {
    /// The path of a step, in the bytes of its trail; what is there of it, where those are too few.
    pub fn path(self, bytes: &[u8]) -> &[u8]
        ensures in_its_place { result.now ≡ path_at bytes.now self }
    {
        front(after(bytes, self.start), self.length)
    }

    // Whether it is such a question about a path. The bytes are compared only where the lengths agree.
    fn answers(self, bytes: &[u8], sort: Sort, path: &[u8]) -> bool
        ensures same_question { result ≡ answers bytes.now self (question_of sort path.now) }
    {
        let same_sort = match self.reply {
            Reply::Kind(_) => sort == Sort::Kind,
            Reply::Manifest(_) => sort == Sort::Manifest,
        };
        same_sort && self.length == path.len() && self.path(bytes) == path
    }
}

// What memory for steps may be filled with before it is lent.
impl Default for Step {
    ghost use Rattle.std.specs.Prelude.{◌≡◌};
    ghost use Rattle.search.specs.declared.trail.Reply.TheVariants.{Manifest};
    ghost use Rattle.search.specs.declared.trail.Presence.TheVariants.{Absent};

    ghost is_default = { λ step. step ≡ record { start = 0; length = 0; reply = Manifest Absent } };

    fn default() -> Step {
        Step {
            start: 0,
            length: 0,
            reply: Reply::Manifest(Presence::Absent),
        }
    }
}

/// The sorts of questions.
#[derive(Clone, Copy, PartialEq, Eq, Debug)]
pub(crate) enum Sort {
    Kind,
    Manifest,
}

// The kind of a path, where the trail has it.
pub(crate) fn known_kind(steps: &List<Step>, bytes: &List<u8>, path: &[u8]) -> Option<Kind>
    ensures told_by_the_trail { (t : Tree) (qs : Trail) → Holds t (in_lists steps.now bytes.now) qs → result ≡ (if on_trail qs (kind_asked path.now) then Some (kind_of (t path.now)) else None) }
    ensures by_a_step { IfSome result (λ _. 0 < steps.now.len) }
{
    match known(steps, bytes, Sort::Kind, path) {
        Some(reply) => reply.kind(),
        None => None,
    }
}

// What was replied to a question about a path, where the trail has it.
pub(crate) fn known(steps: &List<Step>, bytes: &List<u8>, sort: Sort, path: &[u8]) -> Option<Reply>
    ensures told_by_the_trail { (t : Tree) (qs : Trail) → Holds t (in_lists steps.now bytes.now) qs → result ≡ (if on_trail qs (question_of sort path.now) then Some (reply_of t (question_of sort path.now)) else None) }
    ensures by_a_step { IfSome result (λ _. 0 < steps.now.len) }
{
    reply_told(steps.as_slice(), bytes.as_slice(), sort, path)
}

// What steps tell of a path, where such a question about it was asked.
fn reply_told(steps: &[Step], bytes: &[u8], sort: Sort, path: &[u8]) -> Option<Reply>
    ensures first_told { result ≡ told bytes.now steps.now (question_of sort path.now) }
    ensures by_a_step { IfSome result (λ _. 0 < length steps.now) }
{
    for step in steps {
        if step.answers(bytes, sort, path) {
            return Some(step.reply);
        }
    }
    None
}

// Whether there is room for a new question about the path.
pub(crate) fn has_room(steps: &List<Step>, bytes: &List<u8>, path: &[u8]) -> bool
    ensures entry_and_bytes { (t : Tree) (qs : Trail) → Holds t (in_lists steps.now bytes.now) qs → (q : Question) → path_of q ≡ path.now → result ≡ room (limits_of (in_lists steps.now bytes.now)) qs q }
    ensures fits { result ≡ (nat_lt steps.now.len (capacity steps.now) && nat_le (bytes.now.len + length path.now) (capacity bytes.now)) }
{
    steps.room() > 0 && path.len() <= bytes.room()
}

// Notes a question and its reply, for which there is room.
pub(crate) fn note(steps: &mut List<Step>, bytes: &mut List<u8>, path: &[u8], reply: Reply)
    requires { (steps.old.len < capacity steps.old) × (bytes.old.len + length path.now ≤ capacity bytes.old) }
    ensures one_more { (t : Tree) (qs : Trail) (q : Question) → Holds t (in_lists steps.old bytes.old) qs → path_of q ≡ path.now → reply_of t q ≡ reply → Holds t (in_lists steps.new bytes.new) (qs ++ q ∷ []) }
    ensures one_step_more { steps.new.len ≡ steps.old.len + 1 }
    ensures laid_out { LaidOut (in_lists steps.old bytes.old) → LaidOut (in_lists steps.new bytes.new) }
    ensures grew { Grew (in_lists steps.old bytes.old) (in_lists steps.new bytes.new) }
    ensures steps_memory { steps.new.items.ghost_name ≡ steps.old.items.ghost_name }
    ensures bytes_memory { bytes.new.items.ghost_name ≡ bytes.old.items.ghost_name }
{
    let start = bytes.len();
    bytes.append(path).unwrap();
    let step = Step {
        start,
        length: path.len(),
        reply,
    };
    steps.push(step).unwrap();
}

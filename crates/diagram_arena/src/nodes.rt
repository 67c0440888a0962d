//! Nodes, and the names by which they are reached.
ghost use Rattle.std.specs.Prelude.{◌≡◌, ◌≤◌, ◌^◌, false, IfSome, IfNone};

use std::alloc::AllocError;
use std::convert::From;
use std::hash::{Hash, Hasher};
use std::mem::size_of;

/// The name of a node of one arena. It says nothing of when the node was made.
#[derive(Clone, Copy, PartialEq, Eq, PartialOrd, Ord, Hash, Debug)]
pub struct NodeId(pub(crate) u32);

impl NodeId {
    /// The id of the node under this key of the slab, where the key fits into an id.
    pub(crate) fn of_key(key: usize) -> Option<NodeId>
        ensures id { IfSome result (λ i. i.0 ≡ key) }
        ensures none { IfNone result (2 ^ 32 ≤ key) }
    {
        match u32::try_from(key) {
            Ok(key) => Some(NodeId(key)),
            Err(_) => None,
        }
    }

    /// The key of the node in the slab.
    pub(crate) fn key(self) -> usize
        ensures { result ≡ self.0 }
    {
        self.0 as usize
    }
}

/// A set of words: the empty one, that of all words, or that of a node.
#[derive(Clone, Copy, PartialEq, Eq, PartialOrd, Ord, Debug)]
pub enum Ref {
    Zero,
    One,
    Node(NodeId),
}

impl Ref {
    ghost use Rattle.diagram_arena.specs.Hashing.{number};

    /// One number for each ref, to be hashed.
    fn number(&self) -> u64
        ensures { result ≡ number self.now }
    {
        match self {
            Ref::Zero => 0,
            Ref::One => 1,
            Ref::Node(id) => u64::from(id.0) + 2,
        }
    }
}

// A ref is hashed as one number, where a derived impl would hash its variant and its id.
impl Hash for Ref {
    ghost use Rattle.diagram_arena.specs.Hashing.{ref_input, ref_respects};

    ghost hash_input = { ref_input };

    ghost respects_eq = { ref_respects };

    fn hash<H: Hasher>(&self, state: &mut H) {
        state.write_u64(self.number());
    }
}

/// What a node means: the words whose `bit` is false and that lie in `lo`, and those whose `bit` is
/// true and that lie in `hi`.
#[derive(Clone, Copy, PartialEq, Eq, Hash, Debug)]
pub struct Triple {
    pub bit: u32,
    pub lo: Ref,
    pub hi: Ref,
}

/// A node as it is stored. The mark and the tag belong to the caller and change no meaning.
#[derive(Clone, Copy, Debug)]
pub struct Node {
    pub bit: u32,
    pub lo: Ref,
    pub hi: Ref,
    pub mark: bool,
    pub tag: u64,
}

impl Node {
    /// A node at its birth: it has no mark, and the tag 0.
    pub(crate) fn new(triple: Triple) -> Node
        ensures { result ≡ record { bit = triple.bit; lo = triple.lo; hi = triple.hi; mark = false; tag = 0 } }
    {
        Node {
            bit: triple.bit,
            lo: triple.lo,
            hi: triple.hi,
            mark: false,
            tag: 0,
        }
    }
}

// A node and its entry in the index take 64 bytes, 8 of them for the slot, beside what the hash table adds (14 or more).
const _: () = prove!(size_of::<Node>() == 32);

const _: () = prove!(size_of::<Triple>() + size_of::<NodeId>() == 24);

/// Why a node was not made.
#[derive(Clone, Copy, PartialEq, Eq, Debug)]
pub enum Stop {
    /// A new node is needed, and the arena holds as many nodes as its limit allows.
    Full,
    /// There is no memory for it.
    Memory,
}

impl From<AllocError> for Stop {
    ghost use Rattle.diagram_arena.specs.declared.nodes.Stop.{Stop};
    ghost use Rattle.diagram_arena.specs.declared.nodes.Stop.TheVariants.{Memory};

    ghost from_gives = { λ e s. s ≡ Memory };

    fn from(_: AllocError) -> Stop {
        Stop::Memory
    }
}

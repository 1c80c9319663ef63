//! Frames and stacks of frames: the rest of one node in a walk, and the rest of the walk. The nodes are borrowed or owned.
ghost use Rattle.std.specs.Prelude.{◌≡◌, ◌+◌, ◌*◌, ◌<◌, ◌≤◌, List, [], ◌∷◌, ◌++◌, MatchOption, length, ⊤};
ghost use Rattle.std.specs.FinMap.{entries};
ghost use Rattle.std.specs.FinMap.Entries.{where_key};
ghost use Rattle.ipnet_blocks.specs.BitStrings.{bits_cmp, begins};
ghost use Rattle.trie_core.specs.Nodes.{Seen};
ghost use Rattle.trie_core.specs.InnerNodes.{under};
ghost use Rattle.trie_core.specs.InnerSearch.{IsChild, HasNoChild};
ghost use Rattle.trie_core.specs.InnerWalks.{KeysWithin, Left};
ghost use Rattle.trie_core.specs.InnerPlaces.{place_first};
ghost use Rattle.trie_core.specs.InnerSteps.{GivesNext, LastCanGive, LastGives};

use crate::path::Path;
use crate::tables::first_child;

/// The first part of a frame: an entry, or a node below with its path.
pub enum Next<G, F> {
    /// A key and its value.
    Entry(Path, G),
    /// The whole node below, and its path.
    Below(F, Path),
    /// The frame is empty.
    Nothing,
}

/// The rest of one node in a walk; its values of type `T` are borrowed or owned.
pub trait Frame<T>: Drop {
    /// A node as the walk receives it: borrowed or owned.
    type Node: Drop;

    /// A value as the walk returns it: borrowed or owned.
    type Given: Drop;

    /// The node as contracts see it.
    ghost seen: { Self.Node → Seen T };

    /// The returned value as contracts see it.
    ghost value: { Self.Given → T };

    /// The rest of the node.
    ghost left: { Self → Left T };

    /// Returns the child at the first five bits of the path.
    fn child(node: Self::Node, path: &Path) -> Option<Self::Node>
        requires { 5 ≤ length path.now }
        ensures { MatchOption result (HasNoChild path.now (seen node)) (λ c. IsChild path.now (seen node) (seen c)) };

    /// Makes a frame of the whole node.
    fn whole(node: Self::Node) -> Self
        ensures rest { (left result).0 ≡ entries (seen node).entries }
        ensures levels { (left result).1 ≡ (seen node).levels }
        ensures positive { 0 < (left result).1 };

    /// Makes a frame of the keys of the node that begin with a string of fewer than five bits.
    fn inside(node: Self::Node, path: &Path) -> Self
        requires short { length path.now < 5 }
        ensures rest { (left result).0 ≡ where_key bits_cmp (begins path.now) (entries (seen node).entries) }
        ensures levels { (left result).1 ≤ (seen node).levels }
        ensures positive { 0 < (left result).1 };

    /// Returns the number of bits by which its path is longer than that of the frame below it on the stack.
    fn bits(&self) -> u8
        ensures { result ≡ (left self.now).3 };

    /// Takes the first part out of the frame of the node at `way`.
    fn next(&mut self, way: &Path) -> Next<Self::Given, Self>
        requires levels { length way.now + 5 * (left self.old).1 ≤ 130 }
        requires keys { KeysWithin 128 (under way.now (left self.old).0) }
        ensures next { GivesNext value left way.now (left self.old) result (left self.new) }
        ensures levels { 0 < (left self.new).1 }
        ensures bits { (left self.new).3 ≡ (left self.old).3 };
}

/// A stack of at most 26 frames.
///
/// Each kind of frame has its own stack type, because only a concrete frame type gives an array of frames a known size.
pub trait FrameStack<T>: Drop {
    type Frame: Frame<T>;

    /// The rest of each frame; the top frame is last.
    ghost frames: { Self → List (Left T) };

    /// Makes a stack without frames.
    fn empty() -> Self
        ensures { frames result ≡ [] };

    /// Takes the first part out of the top frame; `way` leads to the node of this frame.
    fn next(&mut self, way: &Path) -> Option<Next<<Self::Frame as Frame<T>>::Given, Self::Frame>>
        requires { LastCanGive (λ f. f) way.now (frames self.old) }
        ensures { MatchOption result ((frames self.old ≡ []) × (frames self.new ≡ [])) (λ n. LastGives Self.Frame.value Self.Frame.left (λ f. f) way.now (frames self.old) n (frames self.new)) };

    /// Removes and returns the top frame.
    fn pop(&mut self) -> Option<Self::Frame>
        ensures { MatchOption result ((frames self.old ≡ []) × (frames self.new ≡ [])) (λ f. frames self.old ≡ frames self.new ++ Self.Frame.left f ∷ []) };

    /// Pushes a frame.
    fn push(&mut self, frame: Self::Frame)
        requires { length (frames self.old) < 26 }
        ensures { frames self.new ≡ frames self.old ++ Self.Frame.left frame ∷ [] };
}

/// Whether the first value precedes the first child in the order of a walk.
#[inline]
pub(crate) fn value_first(value: Option<u8>, child: Option<u8>) -> bool
    requires { MatchOption value ⊤ (λ p. p < 31) }
    ensures { result ≡ place_first value child }
{
    match (value, child) {
        (None, _) => false,
        (Some(_), None) => true,
        (Some(value), Some(child)) => first_child(value) <= child,
    }
}

/// Takes the first part out of the last of these frames; `way` leads to the node of this frame.
#[inline(always)]
pub(crate) fn next_of_last<T, F: Frame<T>>(
    frames: &mut [F],
    way: &Path,
) -> Option<Next<F::Given, F>>
    requires { LastCanGive F.left way.now frames.old }
    ensures { MatchOption result ((frames.old ≡ []) × (frames.new ≡ [])) (λ n. LastGives F.value F.left F.left way.now frames.old n frames.new) }
{
    let Some(last) = frames.last_mut() else {
        return None;
    };
    Some(last.next(way))
}

/// A stack of frames of borrowed nodes, which can be copied.
pub trait LentStack<T>: FrameStack<T> {
    /// Returns a copy of the stack. Does not allocate.
    fn copied(&self) -> Self
        ensures { Self.frames result ≡ Self.frames self.now };
}

//! Walks over the entries of a node in order. They do not allocate.
ghost use Rattle.std.specs.Prelude.{◌≡◌, ◌+◌, ◌-◌, ◌*◌, ◌<◌, ◌≤◌, [], length, take, ⊤};
ghost use Rattle.std.specs.FinMap.{entries};
ghost use Rattle.std.specs.FinMap.Entries.{where_key};
ghost use Rattle.std.specs.Iterator.{YieldsFirstBy, item_count};
ghost use Rattle.trie_core.specs.Bits.{is_from};
ghost use Rattle.ipnet_blocks.specs.BitStrings.{bits_cmp, begins};
ghost use Rattle.trie_core.specs.InnerNodes.{under};
ghost use Rattle.trie_core.specs.InnerWalks.{KeysWithin, walk_rest, walk_weight};
ghost use Rattle.trie_core.specs.InnerTrails.{along, IsWalk};
ghost use Rattle.trie_core.specs.InnerSteps.{Stepped};

use crate::frame::{Frame, FrameStack, LentStack, Next};
use crate::lent_frame::{LentFrame, LentNode};
use crate::owned_frame::OwnedFrame;
use crate::path::Path;
use arrayvec::ArrayVec;
use std::alloc::AllocError;
use std::marker::{Model, PhantomData};

/// The rest of a walk: the entries of the frames on the stack, the top frame first. The trail is the path to the node of the top
/// frame, and each frame has the number of bits by which its path is longer than that of the frame below it on the stack.
///
/// There are at most 25 levels of nodes below a node, and a walk has at most one open frame for each level.
#[derive(Drop)]
pub struct FrameWalk<T, S: FrameStack<T>> {
    stack: S,
    trail: Path,
    values: PhantomData<T>,
}

/// The walk over the frames of lent nodes.
pub(crate) type LentFrames<'a, T> = FrameWalk<T, ArrayVec<LentFrame<'a, T>, 26>>;

/// The walk over the frames of owned nodes.
pub(crate) type OwnedFrames<T> = FrameWalk<T, ArrayVec<OwnedFrame<T>, 26>>;

impl<T, S: FrameStack<T>> Model for FrameWalk<T, S> {
    ghost use Rattle.std.specs.Prelude.{ℕ, List, Bool};
    ghost use Rattle.std.specs.Coded.{coded×, coded_ℕ, coded_list, coded_bool};
    ghost use Rattle.trie_core.specs.InnerWalks.{walk_rest, walk_weight};
    ghost use Rattle.trie_core.specs.InnerTrails.{along, IsWalk};

    ghost Value = { List (List Bool × T) × ℕ };

    ghost coded = { coded× (coded_list (coded× (coded_list coded_bool) T.code)) coded_ℕ };

    ghost view = { λ a. (walk_rest (along a.trail (S.frames a.stack)), walk_weight (along a.trail (S.frames a.stack))) };

    ghost invariant = { λ a. IsWalk (S.frames a.stack) a.trail };
}

/// The result of one step of a walk.
pub(crate) enum Step<G> {
    Entry(Path, G),
    Moved,
    Done,
}

/// Returns the path without its last `bits` bits.
#[inline]
fn above(way: &Path, bits: u8) -> Path
    requires { length way.now ≤ 128 }
    ensures { result ≡ take (length way.now - bits) way.now }
{
    Path::new(way.to_bits(), way.len().saturating_sub(bits))
}

impl<T, S: FrameStack<T>> FrameWalk<T, S> {
    /// Makes a walk over the frames of a stack; the trail leads to the node of the top frame.
    fn over(stack: S, trail: Path) -> FrameWalk<T, S>
        requires { IsWalk (S.frames stack) trail }
        ensures { result ≡ (walk_rest (along trail (S.frames stack)), walk_weight (along trail (S.frames stack))) }
    {
        FrameWalk {
            stack,
            trail,
            values: PhantomData,
        }
    }

    /// Makes a walk that starts with one frame, of the node at the trail.
    fn start(frame: S::Frame, trail: Path) -> FrameWalk<T, S>
        requires positive { 0 < (S.Frame.left frame).1 }
        requires levels { (S.Frame.left frame).1 ≤ 26 }
        requires reach { length trail + 5 * (S.Frame.left frame).1 ≤ 130 }
        requires keys { KeysWithin 128 (under trail (S.Frame.left frame).0) }
        ensures { result.0 ≡ under trail (S.Frame.left frame).0 }
    {
        let mut stack = S::empty();
        stack.push(frame);
        FrameWalk::over(stack, trail)
    }

    /// Makes a walk over the entries of a node.
    pub(crate) fn whole(node: <S::Frame as Frame<T>>::Node) -> FrameWalk<T, S>
        requires levels { (S.Frame.seen node).levels ≤ 26 }
        requires keys { KeysWithin 128 (entries (S.Frame.seen node).entries) }
        ensures { result.0 ≡ entries (S.Frame.seen node).entries }
    {
        FrameWalk::start(S::Frame::whole(node), Path::new(0, 0))
    }

    /// Makes a walk over the entries whose keys begin with a path, the path itself included. Other owned entries are dropped.
    pub(crate) fn within(node: <S::Frame as Frame<T>>::Node, path: Path) -> FrameWalk<T, S>
        requires within { length path ≤ 128 }
        requires levels { (S.Frame.seen node).levels ≤ 26 }
        requires keys { KeysWithin 128 (entries (S.Frame.seen node).entries) }
        ensures { result.0 ≡ where_key bits_cmp (begins path) (entries (S.Frame.seen node).entries) }
    {
        let mut node = node;
        let mut path = path;
        let mut trail = Path::new(0, 0);
        'way: while !path.is_short() {
            match S::Frame::child(node, &path) {
                None => return FrameWalk::default(),
                Some(child) => node = child,
            }
            trail = trail.with(path.five(), 5);
            path = path.rest();
        }
        FrameWalk::start(S::Frame::inside(node, &path), trail)
    }

    /// Takes one entry from the top frame, or opens a node, or pops an empty frame.
    #[inline(always)]
    fn step(&mut self) -> Step<<S::Frame as Frame<T>>::Given>
        ensures { Stepped S.Frame.value self.old result self.new }
    {
        match self.stack.next(&self.trail) {
            None => Step::Done,
            Some(Next::Entry(key, value)) => Step::Entry(key, value),
            Some(Next::Below(below, way)) => {
                self.stack.push(below);
                self.trail = way.copied();
                Step::Moved
            }
            Some(Next::Nothing) => {
                let Some(frame) = self.stack.pop() else {
                    unreachable!()
                };
                self.trail = above(&self.trail, frame.bits());
                Step::Moved
            }
        }
    }
}

impl<'a, T> FrameWalk<T, ArrayVec<LentFrame<'a, T>, 26>> {
    /// Makes a walk over the entries whose keys come after a path, in order; the entry of the path itself too if `inclusive`.
    pub(crate) fn onwards(node: LentNode<'a, T>, path: Path, inclusive: bool) -> LentFrames<'a, T>
        requires within { length path ≤ 128 }
        requires levels { node.levels ≤ 26 }
        requires keys { KeysWithin 128 (entries node.entries) }
        ensures { result.0 ≡ where_key bits_cmp (is_from path inclusive) (entries node.entry.entries) }
    {
        let mut stack = ArrayVec::new();
        let mut node = node;
        let mut path = path;
        let mut trail = Path::new(0, 0);
        'way: while !path.is_short() {
            stack.push(LentFrame::past(&node, &path));
            match node.child(&path) {
                None => return FrameWalk::over(stack, trail),
                Some(child) => node = child,
            }
            trail = trail.with(path.five(), 5);
            path = path.rest();
        }
        stack.push(LentFrame::onwards(&node, &path, inclusive));
        FrameWalk::over(stack, trail)
    }
}

impl<T, S: LentStack<T>> Clone for FrameWalk<T, S> {
    ghost is_clone = { λ w r. r ≡ w };

    ghost is_infallible = { λ _. ⊤ };

    /// A copy of the walk from its current position. Does not allocate.
    fn clone(&self) -> Result<FrameWalk<T, S>, AllocError> {
        let trail = self.trail.clone()?;
        Ok(FrameWalk::over(self.stack.copied(), trail))
    }
}

/// The default walk is empty.
impl<T, S: FrameStack<T>> Default for FrameWalk<T, S> {
    ghost is_default = { λ w. w.0 ≡ [] };

    fn default() -> FrameWalk<T, S> {
        FrameWalk::over(S::empty(), Path::new(0, 0))
    }
}

impl<T, S: FrameStack<T>> Iterator for FrameWalk<T, S> {
    type Item = (Path, <S::Frame as Frame<T>>::Given);

    ghost next_gives = { YieldsFirstBy (λ p. (p.0, S.Frame.value p.1)) (λ w. w.0) };

    ghost remaining = { item_count (λ w. w.0) };

    #[inline(always)]
    fn next(&mut self) -> Option<(Path, <S::Frame as Frame<T>>::Given)> {
        'step: loop {
            match self.step() {
                Step::Entry(key, value) => return Some((key, value)),
                Step::Done => return None,
                Step::Moved => {}
            }
        }
    }
}

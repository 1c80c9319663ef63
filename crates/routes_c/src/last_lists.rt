//! The lists that were made last, which C reads.
ghost use Rattle.std.specs.Prelude.{◌≡◌, ◌⊎◌, IfOk, map, slice_get};
ghost use Rattle.routes_c.specs.Handles.{Copied, Told};
ghost use Rattle.routes_c.specs.Lists.{MakesPieces};
ghost use Rattle.routes_c.specs.Opens.{IsEmpty};
ghost use Rattle.routes_c.specs.Shown.{piece_shown};

use crate::shown::{Piece, Route, shown_piece};
use route_table::Flat;
use std::alloc::{AllocError, Global};

/// A list of pieces, and one of routes.
#[derive(Drop)]
pub struct LastLists {
    pub(crate) pieces: Vec<Piece>,
    pub(crate) routes: Vec<Route>,
}

/// The pieces in the layout of C.
fn shown_pieces(alloc: Global, flat: Flat<'_>) -> Result<Vec<Piece>, AllocError>
    ensures { IfOk result (λ v. v.items ≡ map piece_shown flat.entry) }
{
    let mut list = Vec::new(alloc);
    for piece in flat {
        list.push(shown_piece(piece.0, piece.1))?;
    }
    Ok(list)
}

/// Reads the item at an index.
pub(crate) fn tell_at<T: Copy>(items: &[T], index: usize, told: &mut T) -> u32
    ensures { Told (slice_get items.now index) result told.old told.new }
{
    match items.get(index) {
        Some(found) => {
            *told = *found;
            0
        }
        None => 1,
    }
}

/// Copies the items from an index on, as far as there is room.
pub(crate) fn copy_from<T: Copy>(items: &[T], from: usize, out: &mut [T]) -> usize
    ensures { Copied items.now from result out.old out.new }
{
    let left = &items[from.min(items.len())..];
    let count = left.len().min(out.len());
    out[..count].copy_from_slice(&left[..count]);
    count
}

impl LastLists {
    /// Makes two empty lists.
    pub(crate) fn new(alloc: Global) -> LastLists
        ensures { IsEmpty result }
    {
        LastLists {
            pieces: Vec::new(alloc),
            routes: Vec::new(alloc),
        }
    }

    /// Stores the pieces of a flat list.
    pub(crate) fn flat(&mut self, alloc: Global, flat: Flat<'_>) -> u32
        ensures answers { (result ≡ 0) ⊎ (result ≡ 2) }
        ensures list { MakesPieces self.old self.new flat.entry result }
    {
        let Ok(pieces) = shown_pieces(alloc, flat) else {
            return 2;
        };
        self.pieces = pieces;
        0
    }
}

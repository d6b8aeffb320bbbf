ghost use Rattle.std.specs.Prelude.{◌≡◌, List, drop, length, ◌≤◌};
ghost use Rattle.hera_causes.specs.Pieces.{next_piece, later_pieces, allowed_of};

use std::marker::Model;

/// What one call of a source or an output in memory does.
#[derive(Clone, Copy, Debug, PartialEq, Eq)]
pub enum Piece {
    /// It moves at most this many bytes, or at most one where this is 0.
    Take(usize),
    /// It fails.
    Fail,
}

/// The pieces that are still to be followed. Contracts see them as a list.
#[derive(Drop)]
pub struct Pieces {
    pieces: Vec<Piece>,
    at: usize,
}

impl Model for Pieces {
    ghost use Rattle.std.specs.Prelude.{List, drop, length, ◌≤◌};
    ghost use Rattle.hera_causes.specs.declared.piece.Piece.{Piece};

    ghost Value = { List Piece };

    ghost view = { λ p. drop p.at p.pieces.items };

    ghost invariant = { λ p. p.at ≤ length p.pieces.items };
}

impl Pieces {
    /// The pieces, the first of them next.
    pub fn new(pieces: Vec<Piece>) -> Self
        ensures { result ≡ pieces.items }
    {
        Pieces { pieces, at: 0 }
    }

    /// The next piece, which is then gone, where there is one.
    pub fn take_next(&mut self) -> Option<Piece>
        ensures next { result ≡ next_piece self.old }
        ensures later { self.new ≡ later_pieces self.old }
    {
        let piece = self.pieces.get(self.at).copied();
        if piece.is_some() {
            self.at += 1;
        }
        piece
    }
}

/// What a call moves of `most` bytes by its piece, and `None` where it is to fail.
pub fn allowed(piece: Option<Piece>, most: usize) -> Option<usize>
    ensures { result ≡ allowed_of piece most }
{
    match piece {
        None => Some(most),
        Some(Piece::Take(n)) => Some(n.max(1).min(most)),
        Some(Piece::Fail) => None,
    }
}

// The pieces of the answers of all keys.
ghost use Rattle.std.specs.Prelude.{◌≡◌, ◌+◌, ◌-◌, ◌++◌, ◌∷◌, [], OnOk, IfOk, length};
ghost use Rattle.std.specs.Prelude.{slice_get, slice_set, MatchOption, IfSome, Option, Some, None};
ghost use Rattle.std.specs.Bool.{OnTrue, OnFalse};
ghost use Rattle.pipes_timeline.specs.declared.piece.Piece.{Piece as Part};
ghost use Rattle.pipes_timeline.specs.declared.piece.Piece.TheVariants as part;
ghost use Rattle.pipes_timeline.specs.Queues.{open_start, first_piece_start, IsOpen, IsShut};
ghost use Rattle.pipes_timeline.specs.Queues.{Shifts};

use crate::piece::Piece;
use pipes_time::Memory;
use pipes_tuple::Key;
use std::alloc::Global;
use std::collections::VecDeque;

// The pieces that are not sent, in the order of their starts. A place is the number of a piece,
// counted from the first that there ever was.
#[derive(Drop)]
pub struct Pieces {
    queue: VecDeque<Piece>,
    base: u64,
}

// The start of a piece, where it is open.
fn start_of(piece: &Piece) -> Option<u64>
    ensures { result ≡ open_start (Some piece.now) }
{
    match piece {
        Piece::Open(_, start) => Some(*start),
        Piece::Closed(_, _) => None,
        Piece::Void(_) => None,
    }
}

fn is_open(piece: &Piece) -> bool
    ensures open { OnTrue result (IsOpen piece.now) }
    ensures shut { OnFalse result (IsShut piece.now) }
{
    match piece {
        Piece::Open(_, _) => true,
        Piece::Closed(_, _) => false,
        Piece::Void(_) => false,
    }
}

impl Pieces {
    pub(crate) fn new(alloc: Global) -> Pieces
        ensures queue { result.queue.items ≡ [] }
    {
        Pieces {
            queue: VecDeque::new(alloc),
            base: 0,
        }
    }

    pub(crate) fn len(&self) -> usize
        ensures { result ≡ length self.now.queue.items }
    {
        self.queue.len()
    }

    // The start of the piece at a place, if it is open.
    pub(crate) fn start(&self, place: u64) -> Option<u64>
        ensures { result ≡ open_start (slice_get self.now.queue.items (place - self.now.base)) }
    {
        let index = place.saturating_sub(self.base) as usize;
        match self.queue.get(index) {
            Some(piece) => start_of(piece),
            None => None,
        }
    }

    // Another piece is at the place.
    pub(crate) fn put(&mut self, place: u64, piece: Piece)
        ensures queue { self.new.queue.items
            ≡ slice_set self.old.queue.items (place - self.old.base) piece }
        ensures base { self.new.base ≡ self.old.base }
    {
        let index = place.saturating_sub(self.base) as usize;
        if index < self.queue.len() {
            self.queue[index] = piece;
        }
    }

    // A piece opens. Its place.
    pub(crate) fn push(&mut self, key: Key, start: u64) -> Result<u64, Memory>
        ensures queue { OnOk result
            (self.new.queue.items ≡ self.old.queue.items ++ part.Open key start ∷ []) }
        ensures base { OnOk result (self.new.base ≡ self.old.base) }
        ensures place { IfOk result
            (λ place. place ≡ self.old.base + length self.old.queue.items) }
    {
        let len = self.queue.len() as u64;
        let place = self.base.checked_add(len).ok_or(Memory)?;
        self.queue.push_back(Piece::Open(key, start))?;
        Ok(place)
    }

    // Takes out the first piece, which is not open, if the first is such a piece.
    pub(crate) fn shift(&mut self) -> Result<Option<Piece>, Memory>
        ensures { IfOk result (λ first. Shifts self.old self.new first) }
    {
        match self.queue.front() {
            Some(piece) => {
                if is_open(piece) {
                    return Ok(None);
                }
            }
            None => {
                return Ok(None);
            }
        }
        self.base = self.base.checked_add(1).ok_or(Memory)?;
        Ok(self.queue.pop_front())
    }

    // The key of the first piece, where more pieces wait than twice as many as keys have one open.
    pub(crate) fn crowding(&self, keys: usize) -> Result<Option<Key>, Memory> {
        if self.queue.len() / 2 <= keys.saturating_add(8) {
            return Ok(None);
        }
        match self.queue.front() {
            Some(Piece::Open(key, _)) => Ok(Some(key.copy()?)),
            _ => Ok(None),
        }
    }

    // The start of the first piece.
    pub(crate) fn first(&self) -> Option<u64>
        ensures { result ≡ first_piece_start self.now.queue.items }
    {
        match self.queue.front() {
            Some(Piece::Open(_, start)) => Some(*start),
            Some(Piece::Closed(elem, _)) => Some(elem.span.start()),
            Some(Piece::Void(start)) => Some(*start),
            None => None,
        }
    }
}

//! The parts of packets that descriptors describe.

ghost use Rattle.std.specs.Prelude.{◌≡◌, ◌<◌, ◌≤◌, ◌+◌, ◌*◌, ◌++◌, ◌∷◌, length, true};
ghost use Rattle.std.specs.List.{count_by};
ghost use Rattle.std.specs.VecDeque.{deque_len, deque_capacity};
ghost use Rattle.pmd_access.specs.Bufs.{numbers_of};
ghost use Rattle.pmd_tx.specs.Pieces.{pieces_in, first_last, ends_packet};
ghost use Rattle.pmd_tx.specs.Sending.{parts_for};

use pmd_access::{BLOCK_BYTES, Bufs};
use std::collections::VecDeque;

/// A part of a packet: its block, its length, the packet's length, and whether it is the packet's last part.
#[derive(Clone, Copy)]
pub(crate) struct Piece {
    /// The block that contains the part.
    pub(crate) block: u32,
    /// The part's length in bytes.
    pub(crate) len: u16,
    /// The packet's length in bytes.
    pub(crate) whole: u16,
    /// Whether the part is the packet's last.
    pub(crate) last: bool,
}

/// The length in bytes of every part but the last.
const FULL: u16 = BLOCK_BYTES as u16;

/// The number of parts in a packet of `len` bytes.
pub(crate) fn parts_for(len: u16) -> u16
    ensures parts { result ≡ parts_for len }
    ensures few { result ≤ 32 }
{
    ((u32::from(len) + 2047) / 2048) as u16
}

/// Appends a packet's pieces to `pieces`, which has room for them: one in block `first` and one in each of the Bufs
/// `others`. The packet has `whole` bytes.
pub(crate) fn add_pieces(pieces: &mut VecDeque<Piece>, first: u32, others: &Bufs, whole: u16)
    requires room { deque_len pieces.old + 1 + length others.now ≤ deque_capacity pieces.old }
    requires full { 2048 * length others.now ≤ whole }
    ensures { pieces.new.items ≡ pieces.old.items ++ pieces_in whole (first ∷ numbers_of others.now) whole }
{
    let mut block = first;
    let mut left = whole;
    let count = others.count();
    for number in 0..count {
        pieces.push_back_reserved(Piece {
            block,
            len: FULL,
            whole,
            last: false,
        });
        block = others.get(number).block();
        left -= FULL;
    }
    pieces.push_back_reserved(Piece {
        block,
        len: left,
        whole,
        last: true,
    });
}

/// Returns the index of the first piece that ends its packet. The newest piece must end its packet.
pub(crate) fn first_last(pieces: &VecDeque<Piece>) -> u16
    requires some { 0 < length pieces.now.items }
    requires few { length pieces.now.items ≤ 1024 }
    requires ends { ends_packet pieces.now.items ≡ true }
    ensures first { result ≡ first_last pieces.now.items }
    ensures below { result < length pieces.now.items }
{
    for number in 0..pieces.len() {
        if pieces[number].last {
            return number as u16;
        }
    }
    unreachable!()
}

/// The number of packets that end with one of these pieces.
pub(crate) fn count_ends(pieces: &VecDeque<Piece>) -> usize
    ensures { result ≡ count_by (λ piece. piece.last) pieces.now.items }
{
    pieces.iter().filter(|piece| piece.last).count()
}

//! A saved copy of a card, as plain data.

ghost use Rattle.std.specs.Prelude.{◌≡◌, IsTrue, IfOk, OnOk, OnErr};
ghost use Rattle.nic_device.specs.DmaArena.Numbers.{are_all_free};
ghost use Rattle.card.specs.Kept.{without_memory};

use crate::card::Card;
use nic_device::{Arena, Device, RestoreRefused, Snapshot};
use std::alloc::{AllocError, Global};
use std::marker::Model;
use std::mem;

/// The saved contents of a card: a snapshot of the card's device, with the bytes of the lent blocks, and the number of
/// the card's blocks. Blocks that aren't lent are free.
#[derive(Drop)]
pub struct Kept {
    device: Snapshot,
    blocks: u32,
}

impl Model for Kept {
    ghost use Rattle.card.specs.Card.{Holdings, AreShared, holdings_code};
    ghost use Rattle.card.specs.Kept.{blocks_not_lent};

    ghost Value = { Holdings };

    ghost coded = { holdings_code };

    ghost view = { λ k. record { device = k.device; arena = blocks_not_lent k.blocks k.device.memory } };

    ghost invariant = { λ k. AreShared k.device.memory (blocks_not_lent k.blocks k.device.memory) };
}

/// Frees an arena whose blocks are all free.
fn end_arena(arena: Arena)
    requires { IsTrue (are_all_free arena) }
{
    match arena.close() {
        Ok(()) => {}
        Err(_arena) => unreachable!(),
    }
}

impl Card {
    /// Returns a copy of the card as plain data, or `AllocError` if there is no memory for the copy. The card is
    /// unchanged.
    pub fn keep(&self) -> Result<Kept, AllocError>
        ensures { IfOk result (λ kept. kept ≡ self.now) }
    {
        match self.device.snapshot() {
            Ok(device) => Ok(Kept {
                device,
                blocks: self.arena.count(),
            }),
            Err(_) => Err(AllocError),
        }
    }

    /// Like `keep`, for the card as if it had a single block, which is free. Copies no packet memory.
    pub fn keep_without_memory(&self) -> Result<Kept, AllocError>
        ensures { IfOk result (λ kept. kept ≡ without_memory self.now) }
    {
        match self.device.snapshot_without_memory() {
            Ok(device) => Ok(Kept { device, blocks: 1 }),
            Err(_) => Err(AllocError),
        }
    }
}

impl Kept {
    /// Creates a card with the saved contents and its own packet memory. Returns `AllocError` if there is no memory for
    /// the card.
    pub fn card(&self, alloc: Global) -> Result<Card, AllocError>
        ensures { IfOk result (λ card. card ≡ self.now) }
    {
        let Ok(mut arena) = Arena::new(alloc, 0, self.blocks) else {
            return Err(AllocError);
        };
        match Device::restore(&self.device, &mut arena) {
            Ok(device) => Ok(Card { device, arena }),
            Err(RestoreRefused::NotFree(_block)) => unreachable!(),
            Err(RestoreRefused::OutOfMemory) => {
                end_arena(arena);
                Err(AllocError)
            }
        }
    }

    /// Puts the saved contents into a card. If memory runs out, returns `AllocError` and changes nothing. The card
    /// keeps its packet memory if it has as many blocks as the saved card and all blocks to be lent are lent already;
    /// otherwise the card gets new packet memory. The contract doesn't specify which of the two happens.
    pub fn restore(&self, alloc: Global, card: &mut Card) -> Result<(), AllocError>
        ensures restored { OnOk result (card.new ≡ self.now) }
        ensures unchanged { OnErr result (card.new ≡ card.old) }
    {
        if self.blocks == card.arena.count() && card.device.has_blocks_of(&self.device) {
            return card.device.go_back(&self.device, &mut card.arena);
        }
        let other = self.card(alloc)?;
        drop(mem::replace(card, other));
        Ok(())
    }
}

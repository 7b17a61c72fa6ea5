//! The accesses that a driver makes, each with its possible replies.

ghost use Rattle.std.specs.Prelude.{◌≡◌, IfOk, IfErr, OnErr, IfSome};
ghost use Rattle.pmd_access.specs.Accesses.{IsRead, IsWritten, IsLent, IsTaken, IsPeeked, IsPoked};
ghost use Rattle.pmd_access.specs.Begun.{BeganAs};
ghost use Rattle.pmd_access.specs.Made.{AddsSome};
ghost use Rattle.pmd_access.specs.Refusals.{CanRefuse};

use crate::fault::{with_block, without_event};
use crate::nic::Nic;
use device_lock::{Buf, CallFault, Event, Port, Reply};
use std::alloc::Global;

/// Reads the register with this number at the port. Returns `None` if the port has no such register.
pub fn read<N: Nic>(
    alloc: Global,
    nic: &mut N,
    port: Port,
    number: u32,
) -> Result<Option<u32>, CallFault<()>>
    ensures made { IfOk result (λ word. IsRead (N.made nic.old) (N.made nic.new) port number word) }
    ensures began { BeganAs N.began nic.old nic.new }
    ensures refuses { N.refuses nic.new ≡ N.refuses nic.old }
    ensures refusal { IfErr result (λ refusal. CanRefuse (N.refuses nic.new) refusal) }
    ensures refused { OnErr result (AddsSome (N.made nic.old) (N.made nic.new)) }
{
    match nic.call(alloc, Event::Read(port, number)) {
        Ok(Reply::Word(word)) => Ok(Some(word)),
        Ok(Reply::Stray(_)) => Ok(None),
        Ok(_reply) => unreachable!(),
        Err(fault) => Err(without_event(fault)),
    }
}

/// Writes the register with this number at the port. Returns false if the port has no such register.
pub fn write<N: Nic>(
    alloc: Global,
    nic: &mut N,
    port: Port,
    number: u32,
    word: u32,
) -> Result<bool, CallFault<()>>
    ensures made { IfOk result (λ known. IsWritten (N.made nic.old) (N.made nic.new) port number word known) }
    ensures began { BeganAs N.began nic.old nic.new }
    ensures refuses { N.refuses nic.new ≡ N.refuses nic.old }
    ensures refusal { IfErr result (λ refusal. CanRefuse (N.refuses nic.new) refusal) }
    ensures refused { OnErr result (AddsSome (N.made nic.old) (N.made nic.new)) }
{
    match nic.call(alloc, Event::Write(port, number, word)) {
        Ok(Reply::Done) => Ok(true),
        Ok(Reply::Stray(_)) => Ok(false),
        Ok(_reply) => unreachable!(),
        Err(fault) => Err(without_event(fault)),
    }
}

/// Lends a block. If a block with this number is already lent, returns a block with that number; otherwise returns
/// `None`. A refused call returns the block with the error.
pub fn lend<N: Nic>(
    alloc: Global,
    nic: &mut N,
    buf: Buf,
) -> Result<Option<Buf>, (CallFault<()>, Buf)>
    ensures made { IfOk result (λ twice. IsLent (N.made nic.old) (N.made nic.new) buf twice) }
    ensures number { IfOk result (λ twice. IfSome twice (λ back. back.number ≡ buf.number)) }
    ensures began { BeganAs N.began nic.old nic.new }
    ensures refuses { N.refuses nic.new ≡ N.refuses nic.old }
    ensures refusal { IfErr result (λ refused. CanRefuse (N.refuses nic.new) refused.0) }
    ensures back { IfErr result (λ refused. refused.1 ≡ buf) }
    ensures refused { OnErr result (AddsSome (N.made nic.old) (N.made nic.new)) }
{
    match nic.call(alloc, Event::Lend(buf)) {
        Ok(Reply::Done) => Ok(None),
        Ok(Reply::Twice(buf)) => Ok(Some(buf)),
        Ok(_reply) => unreachable!(),
        Err(fault) => Err(with_block(fault)),
    }
}

/// Takes a block back. Returns `None` if no block with this number is lent.
pub fn take<N: Nic>(alloc: Global, nic: &mut N, block: u32) -> Result<Option<Buf>, CallFault<()>>
    ensures made { IfOk result (λ taken. IsTaken (N.made nic.old) (N.made nic.new) block taken) }
    ensures number { IfOk result (λ taken. IfSome taken (λ buf. buf.number ≡ block)) }
    ensures began { BeganAs N.began nic.old nic.new }
    ensures refuses { N.refuses nic.new ≡ N.refuses nic.old }
    ensures refusal { IfErr result (λ refusal. CanRefuse (N.refuses nic.new) refusal) }
    ensures refused { OnErr result (AddsSome (N.made nic.old) (N.made nic.new)) }
{
    match nic.call(alloc, Event::Take(block)) {
        Ok(Reply::Buf(buf)) => Ok(Some(buf)),
        Ok(Reply::NotLent) => Ok(None),
        Ok(_reply) => unreachable!(),
        Err(fault) => Err(without_event(fault)),
    }
}

/// Reads the 16 bytes at a bus address. Returns `None` if the bytes aren't lent or the address isn't a multiple of 16.
pub fn peek<N: Nic>(
    alloc: Global,
    nic: &mut N,
    address: u32,
) -> Result<Option<[u8; 16]>, CallFault<()>>
    ensures made { IfOk result (λ bytes. IsPeeked (N.made nic.old) (N.made nic.new) address bytes) }
    ensures began { BeganAs N.began nic.old nic.new }
    ensures refuses { N.refuses nic.new ≡ N.refuses nic.old }
    ensures refusal { IfErr result (λ refusal. CanRefuse (N.refuses nic.new) refusal) }
    ensures refused { OnErr result (AddsSome (N.made nic.old) (N.made nic.new)) }
{
    match nic.call(alloc, Event::Peek16(address)) {
        Ok(Reply::Bytes(bytes)) => Ok(Some(bytes)),
        Ok(Reply::NotLent) | Ok(Reply::Misaligned) => Ok(None),
        Ok(_reply) => unreachable!(),
        Err(fault) => Err(without_event(fault)),
    }
}

/// Writes 16 bytes at a bus address. Returns true, or false if the bytes aren't lent or the address isn't a multiple of
/// 16.
pub fn poke<N: Nic>(
    alloc: Global,
    nic: &mut N,
    address: u32,
    bytes: [u8; 16],
) -> Result<bool, CallFault<()>>
    ensures made { IfOk result (λ known. IsPoked (N.made nic.old) (N.made nic.new) address bytes known) }
    ensures began { BeganAs N.began nic.old nic.new }
    ensures refuses { N.refuses nic.new ≡ N.refuses nic.old }
    ensures refusal { IfErr result (λ refusal. CanRefuse (N.refuses nic.new) refusal) }
    ensures refused { OnErr result (AddsSome (N.made nic.old) (N.made nic.new)) }
{
    match nic.call(alloc, Event::Poke16(address, bytes)) {
        Ok(Reply::Done) => Ok(true),
        Ok(Reply::NotLent) | Ok(Reply::Misaligned) => Ok(false),
        Ok(_reply) => unreachable!(),
        Err(fault) => Err(without_event(fault)),
    }
}

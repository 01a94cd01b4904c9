// One shelf for two parties: records put, got and dropped, each party in its own half, and the shelf cleared.
#![tactic(auto)]

ghost use Rattle.std.specs.Prelude.{◌≡◌, Ok, [], length};
ghost use Rattle.shelf.specs.Requests.{Put, Get, Drop, Slot, Length, Done, on_half, tells, Leaves};
ghost use Rattle.shelf.specs.Placing.{start_of, used_slot, Placeable};
ghost use Rattle.shelf.specs.Steps.{Clear, By, step};

use modes::{Reason, Refusal};
use slots::HALF;

// The bytes of a shelf.
pub const SHELF: usize = 65536;

// Party 0 has the lower half, party 1 the upper.
const PARTIES: u64 = 2;

const NO_SUCH_PARTY: Refusal = Refusal {
    reason: Reason::NoSuchParty,
    operand: 0,
    place: 0,
};

const DAMAGED_HALF: Refusal = Refusal {
    reason: Reason::DamagedHalf,
    operand: 0,
    place: 0,
};

const NO_FREE_SLOT: Refusal = Refusal {
    reason: Reason::NoFreeSlot,
    operand: 0,
    place: 0,
};

const NO_GAP: Refusal = Refusal {
    reason: Reason::NoGap,
    operand: 0,
    place: 0,
};

const NO_SUCH_SLOT: Refusal = Refusal {
    reason: Reason::NoSuchSlot,
    operand: 0,
    place: 0,
};

// Where a party's half begins, of a shelf of so many bytes: 18, then 19 of a shelf that has another length.
fn start_of(party: u64, size: usize) -> Result<usize, Refusal>
    ensures { result ≡ start_of party size }
{
    if PARTIES <= party {
        return Err(NO_SUCH_PARTY);
    }
    if size != SHELF {
        return Err(DAMAGED_HALF);
    }
    Ok(HALF * (party as usize))
}

// A slot that a record is in: 19, then 22.
fn used_slot(half: &[u8; HALF], slot: u64) -> Result<usize, Refusal>
    ensures { result ≡ used_slot half.now slot }
{
    if !slots::is_whole(half) {
        return Err(DAMAGED_HALF);
    }
    if (slots::SLOTS as u64) <= slot {
        return Err(NO_SUCH_SLOT);
    }
    if slots::is_free(half, slot as usize) {
        return Err(NO_SUCH_SLOT);
    }
    Ok(slot as usize)
}

// The record `a` into a half that is not damaged: 20, 21, or its slot.
fn place_in(half: &mut [u8; HALF], a: &[u8]) -> Result<usize, Refusal>
    requires { Placeable half.old a.now }
    ensures { Leaves (on_half (Put a.now) half.old) (tells Slot result) [] half.new }
{
    let Some(slot) = slots::free_slot(half) else {
        return Err(NO_FREE_SLOT);
    };
    let Some(place) = slots::gap_for(half, a.len()) else {
        return Err(NO_GAP);
    };
    slots::hold(half, slot, place, a);
    Ok(slot)
}

// A half judged, then the record, before it is placed.
fn put_in(half: &mut [u8; HALF], a: &[u8]) -> Result<usize, Refusal>
    ensures { Leaves (on_half (Put a.now) half.old) (tells Slot result) [] half.new }
{
    if !slots::is_whole(half) {
        return Err(DAMAGED_HALF);
    }
    record::check(a, 1)?;
    place_in(half, a)
}

// A copy of what slot `slot` holds, with zeros past it. The record is not checked again.
fn get_in(half: &[u8; HALF], slot: u64, out: &mut [u8]) -> Result<usize, Refusal>
    ensures { Leaves (on_half (Get slot (length out.old)) half.now) (tells Length result) out.new half.now }
{
    let i = match used_slot(half, slot) {
        Ok(i) => i,
        Err(refusal) => return lent::refuse(out, refusal),
    };
    let place = slots::place_of(half, i);
    let len = slots::length_of(half, i);
    if out.len() < len {
        return lent::refuse(out, Refusal::OUTPUT_TOO_SHORT);
    }
    lent::copy(out, 0, &half[place..place + len]);
    lent::wipe_from(out, len);
    Ok(len)
}

// Record and entry to zero.
fn drop_in(half: &mut [u8; HALF], slot: u64) -> Result<(), Refusal>
    ensures { Leaves (on_half (Drop slot) half.old) (tells (λ _. Done) result) [] half.new }
{
    let i = used_slot(half, slot)?;
    let place = slots::place_of(half, i);
    let len = slots::length_of(half, i);
    slots::release(half, i, place, len);
    Ok(())
}

// Every byte to zero, of whatever is lent. It is no party's call, and nothing refuses it.
pub fn clear(shelf: &mut [u8])
    ensures { Leaves (step Clear shelf.old) (Ok Done) [] shelf.new }
{
    lent::wipe(shelf);
}

// The record `a` into the party's half, and its slot. The shelf is split, since nothing tells how a part `[start..end]` comes back that was lent as an array.
pub fn put(shelf: &mut [u8], party: u64, a: &[u8]) -> Result<usize, Refusal>
    ensures { Leaves (step (By party (Put a.now)) shelf.old) (tells Slot result) [] shelf.new }
{
    let start = start_of(party, shelf.len())?;
    let (_, from_start) = shelf.split_at_mut(start);
    let half = from_start.first_chunk_mut().unwrap();
    put_in(half, a)
}

// A copy of the party's record, and its length.
pub fn get(shelf: &[u8], party: u64, slot: u64, out: &mut [u8]) -> Result<usize, Refusal>
    ensures { Leaves (step (By party (Get slot (length out.old))) shelf.now) (tells Length result) out.new shelf.now }
{
    let start = match start_of(party, shelf.len()) {
        Ok(start) => start,
        Err(refusal) => return lent::refuse(out, refusal),
    };
    let half = shelf[start..start + HALF].as_array().unwrap();
    get_in(half, slot, out)
}

// The party's record dropped.
pub fn drop(shelf: &mut [u8], party: u64, slot: u64) -> Result<(), Refusal>
    ensures { Leaves (step (By party (Drop slot)) shelf.old) (tells (λ _. Done) result) [] shelf.new }
{
    let start = start_of(party, shelf.len())?;
    let (_, from_start) = shelf.split_at_mut(start);
    let half = from_start.first_chunk_mut().unwrap();
    drop_in(half, slot)
}

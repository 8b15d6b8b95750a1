// The services of one platform that speaks Issue 3, as it told of them (001, Table 4): a block of 256 words that the caller
// lends. A word is a service's ID and, as its upper half, its state. Any words are a block: a word whose state is 0 is free, and
// what stands behind the first free one is not looked at.
#![tactic(auto)]

ghost use Rattle.std.specs.Prelude.{◌≡◌, true, ◌<◌};
ghost use Rattle.services.specs.Word.{is_free, is_place_for, says, word_for, unavailable_of};
ghost use Rattle.services.specs.Block.{service_place, availability_in, pairs_in, pair_has_place, pair_told, pairs_told, all_have_places};
ghost use Rattle.services.specs.Block.{note_refusal, status_noted, marked};

// What is known of a service.
#[derive(Clone, Copy)]
pub enum Availability {
    Unheard,
    Unavailable,
    Available,
}

pub const SERVICES: usize = 256;

// A status that would need a 257th service of its platform.
pub const SERVICES_FULL: u32 = 63;

// A word's state is its upper half: 0 free, 1 UNAVAILABLE, 2 AVAILABLE.
pub const STATE: u64 = 4294967296;

const UNAVAILABLE: u64 = 1;

pub const AVAILABLE: u64 = 2;

// In an AVAILABILITY_STATUS 1 says AVAILABLE.
const TOLD_AVAILABLE: u32 = 1;

// A payload is a count, and behind it pairs of a service's ID and state.
const FIRST_ID: usize = 4;

const FIRST_STATE: usize = 8;

const PAIR_BYTES: usize = 8;

// Notes what the payload of an AVAILABILITY_STATUS tells, all of it, and answers 0; or nothing, and answers 63. A block of
// another length than 256 takes nothing.
pub fn note(block: &mut [u64], payload: &[u8]) -> u32
    ensures answer { result ≡ note_refusal block.old payload.now }
    ensures block { block.new ≡ status_noted block.old payload.now }
{
    if block.len() != SERVICES {
        return SERVICES_FULL;
    }
    let mut trial = [0u64; SERVICES];
    trial.copy_from_slice(block);
    if tell_all(&mut trial, payload) {
        block.copy_from_slice(&trial);
        0
    } else {
        SERVICES_FULL
    }
}

// What is known of one service.
pub fn state(block: &[u64], id: u32) -> Availability
    ensures { result ≡ availability_in block.now id }
{
    said(wire::word_at(block, place(block, id)))
}

// The platform went DOWN: all its services that are known are UNAVAILABLE, and still known.
pub fn mark(block: &mut [u64])
    ensures { block.new ≡ marked block.old }
{
    for word in block.iter_mut() {
        if is_free(*word) {
            return;
        }
        *word = unavailable(*word);
    }
}

// Tells a block the pairs from the left, up to one that has no place; whether all had one.
fn tell_all(block: &mut [u64], payload: &[u8]) -> bool
    ensures answer { result ≡ all_have_places block.old payload.now }
    ensures block { result ≡ true → block.new ≡ pairs_told block.old payload.now (pairs_in payload.now) }
{
    for i in 0..pairs(payload) {
        if !tell(block, payload, i) {
            return false;
        }
    }
    true
}

// Tells a block one pair; whether it had a place.
fn tell(block: &mut [u64], payload: &[u8], i: usize) -> bool
    requires { i < pairs_in payload.now }
    ensures answer { result ≡ pair_has_place block.old payload.now i }
    ensures block { block.new ≡ pair_told block.old payload.now i }
{
    let id = wire::number_at::<u32>(payload, PAIR_BYTES * i + FIRST_ID);
    let state = wire::number_at::<u32>(payload, PAIR_BYTES * i + FIRST_STATE);
    let at = place(block, id);
    if at < block.len() {
        block[at] = word_for(id, state);
        true
    } else {
        false
    }
}

fn pairs(payload: &[u8]) -> usize
    ensures { result ≡ pairs_in payload.now }
{
    payload.len().saturating_sub(FIRST_ID) / PAIR_BYTES
}

// The first word that bears the ID or is free; past the last where there is none.
fn place(block: &[u64], id: u32) -> usize
    ensures { result ≡ service_place block.now id }
{
    for (i, word) in block.iter().enumerate() {
        if is_place_for(*word, id) {
            return i;
        }
    }
    block.len()
}

fn is_place_for(word: u64, id: u32) -> bool
    ensures { result ≡ is_place_for word id }
{
    is_free(word) | (word % STATE == id as u64)
}

fn is_free(word: u64) -> bool
    ensures { result ≡ is_free word }
{
    word / STATE == 0
}

fn said(word: u64) -> Availability
    ensures { result ≡ says word }
{
    match word / STATE {
        0 => Availability::Unheard,
        AVAILABLE => Availability::Available,
        _ => Availability::Unavailable,
    }
}

fn word_for(id: u32, state: u32) -> u64
    ensures { result ≡ word_for id state }
{
    if state == TOLD_AVAILABLE {
        AVAILABLE * STATE + id as u64
    } else {
        UNAVAILABLE * STATE + id as u64
    }
}

fn unavailable(word: u64) -> u64
    ensures { result ≡ unavailable_of word }
{
    UNAVAILABLE * STATE + word % STATE
}

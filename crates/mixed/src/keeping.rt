// What the partners of Issue 3 told of their services, in the caller's words: a block for each of them, one behind another.
ghost use Rattle.std.specs.Prelude.{◌≡◌};
ghost use Rattle.mixed.specs.Keeping.{note_number, with_noted, mark_number, with_marked, kept_number, kept_words};

use crate::reactions::Deed;
use services::SERVICES;

// Notes what a message tells of its sender's services: 10 where they have no block, 63 where they do not fit into it.
pub(crate) fn keep(
    partners: &[u64],
    sender: u8,
    deed: Deed,
    payload: &[u8],
    blocks: &mut [u64],
) -> u32
    ensures answer { result ≡ kept_number partners.now sender deed payload.now blocks.old }
    ensures blocks { blocks.new ≡ kept_words partners.now sender deed payload.now blocks.old }
{
    match deed {
        Deed::Note => note(partners, sender, payload, blocks),
        Deed::MarkAll => mark(partners, sender, blocks),
        _ => 0,
    }
}

fn note(partners: &[u64], sender: u8, payload: &[u8], blocks: &mut [u64]) -> u32
    ensures answer { result ≡ note_number partners.now sender payload.now blocks.old }
    ensures blocks { blocks.new ≡ with_noted partners.now sender payload.now blocks.old }
{
    let start = partners::block_start(partners, sender as u32);
    let end = start + SERVICES;
    if end <= blocks.len() {
        services::note(&mut blocks[start..end], payload)
    } else {
        message::NO_ROOM
    }
}

fn mark(partners: &[u64], sender: u8, blocks: &mut [u64]) -> u32
    ensures answer { result ≡ mark_number partners.now sender blocks.old }
    ensures blocks { blocks.new ≡ with_marked partners.now sender blocks.old }
{
    let start = partners::block_start(partners, sender as u32);
    let end = start + SERVICES;
    if end <= blocks.len() {
        services::mark(&mut blocks[start..end]);
        0
    } else {
        message::NO_ROOM
    }
}

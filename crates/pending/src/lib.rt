// The requests that are pending: a list of 64 places in words that the caller lends. Word k is the number and the ID of place
// k, word 64 + k the platform that was asked. Any words are a list: a place is free where its number is 0, a word that is not
// there reads as 0, and a write outside does nothing.
#![tactic(auto)]

ghost use Rattle.std.specs.Prelude.{◌≡◌, ◌<◌, length, nat_le, slice_set};
ghost use Rattle.pending.specs.Places.{places, number_at, pending_id_at, target_at, first_bearing, place_of, free_place, placed, entered, cleared};
ghost use Rattle.pending.specs.Free.{drawn, is_at, is_pending, blocked, next_free};
ghost use Rattle.pending.specs.Answers.{awaited_of, cancelled, bears, is_response, responded};

pub const PLACES: usize = 64;

// A place's number is the upper half of its word.
const NUMBER: u64 = 4294967296;

// The first place that bears the number.
pub fn place_of(list: &[u64], number: u32) -> Option<usize>
    ensures { result ≡ place_of list.now number }
{
    if number == 0 {
        None
    } else {
        first_bearing(list, number)
    }
}

pub fn free_place(list: &[u64]) -> Option<usize>
    ensures { result ≡ free_place list.now }
{
    first_bearing(list, 0)
}

// The own number after this one: after 0xFFFFFFFF comes 0.
pub fn drawn(number: u32) -> u32
    ensures { result ≡ drawn number }
{
    std::num::wrapping_add_u32(number, 1)
}

// The first number from this one on, going round, that is neither 0 nor pending.
pub fn next_free(list: &[u64], number: u32) -> u32
    ensures { result ≡ next_free list.now number }
{
    let mut free = number;
    for _ in 0..PLACES + 1 {
        if !is_blocked(list, free) {
            return free;
        }
        free = drawn(free);
    }
    free
}

// Enters a request at a place.
pub fn enter(list: &mut [u64], place: usize, number: u32, id: u32, target: u32)
    ensures { list.new ≡ entered list.old place number id target }
{
    put(
        list,
        place,
        (number as u64) * NUMBER + (id as u64),
        target as u64,
    );
}

// Frees a place.
pub fn clear(list: &mut [u64], place: usize)
    ensures { list.new ≡ cleared list.old place }
{
    put(list, place, 0, 0);
}

// Gives up the request of this number; whether there was one.
pub fn cancel(list: &mut [u64], number: u32) -> bool
    ensures answer { result ≡ is_pending list.old number }
    ensures list { list.new ≡ cancelled list.old number }
{
    let Some(place) = place_of(list, number) else {
        return false;
    };
    clear(list, place);
    true
}

// What is pending under a number: the ID of the operation that was asked, and the platform. A target above 0xFFFFFFFF is nobody's.
pub fn awaited(list: &[u64], number: u32) -> Option<(u32, u64)>
    ensures { result ≡ awaited_of list.now number }
{
    let place = place_of(list, number)?;
    Some((id_at(list, place), target_at(list, place)))
}

// A message with this number and ID from this sender: whether it is the response to a request, which is then pending no more.
pub fn take_response(list: &mut [u64], number: u32, id: u32, sender: u32) -> bool
    ensures answer { result ≡ is_response list.old number id sender }
    ensures list { list.new ≡ responded list.old number id sender }
{
    let Some(place) = place_of(list, number) else {
        return false;
    };
    if is_for(list, place, id, sender) {
        clear(list, place);
        true
    } else {
        false
    }
}

// 0 is not a request's number, and a number that is pending is taken.
fn is_blocked(list: &[u64], number: u32) -> bool
    ensures { result ≡ blocked list.now number }
{
    if number == 0 {
        return true;
    }
    is_borne(list, number)
}

// Whether a place bears this number. Nearly always none does, and all are looked at: with no way out the compiler looks at
// several at once.
fn is_borne(list: &[u64], number: u32) -> bool
    ensures { result ≡ is_at (first_bearing list.now number) }
{
    let mut found = false;
    for k in 0..PLACES {
        found |= number_at(list, k) == number;
    }
    found
}

// The first place with this number, 0 too. Whether the list has all its places is tested once; and with four places a turn the
// compiler leaves this a function of its own.
fn first_bearing(list: &[u64], number: u32) -> Option<usize>
    ensures { result ≡ first_bearing list.now number }
{
    let whole = PLACES <= list.len();
    for start in (0..PLACES).step_by(4) {
        for k in start..start + 4 {
            if number_in(list, k, whole) == number {
                return Some(k);
            }
        }
    }
    None
}

// A place's number, where it is known whether the list has all its places.
fn number_in(list: &[u64], k: usize, whole: bool) -> u32
    requires whole_value { whole ≡ nat_le places (length list.now) }
    requires k_lt_places { k < places }
    ensures { result ≡ number_at list.now k }
{
    if whole {
        (list[k] / NUMBER) as u32
    } else {
        number_at(list, k)
    }
}

fn number_at(list: &[u64], k: usize) -> u32
    ensures { result ≡ number_at list.now k }
{
    (wire::word_at(list, k) / NUMBER) as u32
}

fn id_at(list: &[u64], k: usize) -> u32
    ensures { result ≡ pending_id_at list.now k }
{
    (wire::word_at(list, k) % NUMBER) as u32
}

fn target_at(list: &[u64], k: usize) -> u64
    requires { k < places }
    ensures { result ≡ target_at list.now k }
{
    wire::word_at(list, PLACES + k)
}

// Whether the place's request asked this operation of this platform.
fn is_for(list: &[u64], k: usize, id: u32, platform: u32) -> bool
    requires { k < places }
    ensures { result ≡ bears list.now k id platform }
{
    (id_at(list, k) == id) & (target_at(list, k) == platform as u64)
}

// Both words of a place.
fn put(list: &mut [u64], k: usize, word: u64, target: u64)
    ensures { list.new ≡ placed list.old k word target }
{
    if k < PLACES {
        put_word(list, k, word);
        put_word(list, PLACES + k, target);
    }
}

fn put_word(list: &mut [u64], at: usize, word: u64)
    ensures { list.new ≡ slice_set list.old at word }
{
    if at < list.len() {
        list[at] = word;
    }
}

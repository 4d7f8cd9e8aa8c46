// The calls as other languages make them. Each is lent the caller's own structs and buffers, changes them in place, and answers with a number. They are
// exported under these names by the static library `exports_c`.
#![tactic(auto)]

ghost use Rattle.std.specs.Prelude.{◌≡◌, []};
ghost use Rattle.refusal.specs.Refusal.{filled};
ghost use Rattle.sha256.specs.Sha256.{digest_of};
ghost use Rattle.hmac.specs.Hmac.{mac_of};
ghost use Rattle.state.specs.Sizes.{width};
ghost use Rattle.state.specs.Start.{start_of};
ghost use Rattle.state.specs.Marks.{count_of};
ghost use Rattle.state.specs.Access.{add_of, load_of, store_of, remove_of, lowest_of, free_number};
ghost use Rattle.state.specs.Check.{check_of};
ghost use Rattle.entries.specs.Tag.{tag};
ghost use Rattle.filter.specs.Filter.{pack_of, unpack_of};
ghost use Rattle.going.specs.Going.{going_of};
ghost use Rattle.held.specs.Held.{state_of, held_of};
ghost use Rattle.held.specs.Fields.{record_of, fields_of};
ghost use Rattle.held.specs.Answers.{left, in_place, stamp_or, look_answer, free_or, going_answer, distance_or};

use held::{Fields, Held};
use state::State;

// Starts a state under a key of 32 bytes; for any other key number 8, and a closed state of zeros.
pub fn pintlecup_start(state: &mut Held, key: &[u8]) -> u8
    ensures { (result ≡ (start_of key.now).number) × (state.new ≡ held_of (start_of key.now).state) }
{
    let started = held::start(key);
    *state = started.state;
    started.answer
}

// Puts a value at an address that is not in use, and marks it in use.
pub fn pintlecup_add(state: &mut Held, store: &mut [u8], address: usize, value: &[u8]) -> u8
    ensures { left result state.new store.new []
        ≡ in_place state.old (add_of width tag (state_of state.old) store.old address value.now).seen }
{
    let h = *state;
    let added = held::add(h, store, address, value);
    *state = added.state;
    added.answer
}

// Takes the value at an address in use, puts it back, and copies it out.
pub fn pintlecup_load(state: &mut Held, store: &mut [u8], address: usize, out: &mut [u8]) -> u8
    ensures { left result state.new store.new out.new
        ≡ in_place state.old (load_of width tag (state_of state.old) store.old address out.old).seen }
{
    let h = *state;
    let loaded = held::load(h, store, address, out);
    *state = loaded.state;
    loaded.answer
}

// Takes the value at an address in use, and puts a new one.
pub fn pintlecup_store(state: &mut Held, store: &mut [u8], address: usize, value: &[u8]) -> u8
    ensures { left result state.new store.new []
        ≡ in_place state.old (store_of width tag (state_of state.old) store.old address value.now).seen }
{
    let h = *state;
    let stored = held::store(h, store, address, value);
    *state = stored.state;
    stored.answer
}

// Takes the value at an address in use, fills its cell with zeros, and clears its mark.
pub fn pintlecup_remove(state: &mut Held, store: &mut [u8], address: usize) -> u8
    ensures { left result state.new store.new []
        ≡ in_place state.old (remove_of width tag (state_of state.old) store.old address).seen }
{
    let h = *state;
    let removed = held::remove(h, store, address);
    *state = removed.state;
    removed.answer
}

// 0 where the check accepts. Where it rejects the state is closed: 254 for a stamp that was ahead of the clock, and the lent address is that of the first; 255
// for the tags. Else the number of a refusal. The lent address is written with 254 alone.
pub fn pintlecup_check(state: &mut Held, store: &mut [u8], address: &mut usize) -> u8
    ensures { (left result state.new store.new []
        ≡ in_place state.old (check_of width tag (state_of state.old) store.old).seen)
        × (address.new ≡ stamp_or address.old (check_of width tag (state_of state.old) store.old).seen.verdict) }
{
    let h = *state;
    let a = *address;
    let checked = held::check(h, store, a);
    *state = checked.state;
    *address = checked.address;
    checked.answer
}

// Where in the lent store the value's bytes begin; the size of a store where its size or the address is refused.
pub fn pintlecup_look(store: &[u8], address: usize) -> usize
    ensures { result ≡ look_answer width store.now address }
{
    match numbers::look(store, address) {
        Ok(()) => State::CELL * address,
        Err(_) => State::STORE,
    }
}

// How many addresses are in use.
pub fn pintlecup_count(state: &Held) -> u32
    ensures { result ≡ count_of state.now.marks }
{
    let h = *state;
    held::count(h)
}

// The smallest address that is not in use, with 0; or 9 where there is none, and the lent address is left.
pub fn pintlecup_lowest_free(state: &Held, address: &mut usize) -> u8
    ensures { (result ≡ free_number (lowest_of state.now.marks))
        × (address.new ≡ free_or address.old (lowest_of state.now.marks)) }
{
    let h = *state;
    let a = *address;
    let lowest = held::lowest_free(h, a);
    *address = lowest.address;
    lowest.number
}

// The digest of up to 8,192 bytes.
pub fn pintlecup_digest(message: &[u8], out: &mut [u8]) -> u8
    ensures { filled result out.new ≡ digest_of message.now out.old }
{
    refusal::told(sha256::digest(message, out))
}

// The HMAC of up to 4,096 bytes under a key of up to 1,024.
pub fn pintlecup_hmac(key: &[u8], message: &[u8], out: &mut [u8]) -> u8
    ensures { filled result out.new ≡ mac_of key.now message.now out.old }
{
    refusal::told(hmac::mac(key, message, out))
}

// Packs a filter record into 28 lent bytes.
pub fn pintlecup_pack(filter: &Fields, out: &mut [u8]) -> u8
    ensures { filled result out.new ≡ pack_of (record_of filter.now) out.old }
{
    let f = *filter;
    held::pack(f, out)
}

// Unpacks 28 bytes into a filter record; zero in every field where they are refused.
pub fn pintlecup_unpack(bytes: &[u8], filter: &mut Fields) -> u8
    ensures { (result ≡ (unpack_of bytes.now).number) × (filter.new ≡ fields_of (unpack_of bytes.now).filter) }
{
    let unpacked = held::unpack(bytes);
    *filter = unpacked.fields;
    unpacked.number
}

// Of a filter record held and one offered: 0 forward, 1 back, 2 another member's, 16 no order. The lent distance is written with 0 and 1 alone.
pub fn pintlecup_compare(held: &Fields, offered: &Fields, distance: &mut i32) -> u8
    ensures { (result ≡ going_answer (going_of (record_of held.now) (record_of offered.now)))
        × (distance.new ≡ distance_or distance.old (going_of (record_of held.now) (record_of offered.now))) }
{
    let h = *held;
    let o = *offered;
    let d = *distance;
    let compared = held::compare(h, o, d);
    *distance = compared.distance;
    compared.answer
}

// The static library: each call of `exports` under its C name, and with its clauses. No crate can name a function of a static library, so the claims are of
// `exports`, and both stand.
#![tactic(auto)]

ghost use Rattle.std.specs.Prelude.{◌≡◌, []};
ghost use Rattle.refusal.specs.Refusal.{filled};
ghost use Rattle.sha256.specs.Sha256.{digest_of};
ghost use Rattle.hmac.specs.Hmac.{mac_of};
ghost use Rattle.state.specs.Sizes.{width};
ghost use Rattle.state.specs.Start.{start_of};
ghost use Rattle.state.specs.Marks.{count_of};
ghost use Rattle.state.specs.Access.{add_of, load_of, store_of, remove_of, lowest_of, free_number};
ghost use Rattle.state.specs.Check.{check_of};
ghost use Rattle.entries.specs.Tag.{tag};
ghost use Rattle.filter.specs.Filter.{pack_of, unpack_of};
ghost use Rattle.going.specs.Going.{going_of};
ghost use Rattle.held.specs.Held.{state_of, held_of};
ghost use Rattle.held.specs.Fields.{record_of, fields_of};
ghost use Rattle.held.specs.Answers.{left, in_place, stamp_or, look_answer, free_or, going_answer, distance_or};

use held::{Fields, Held};

#[unsafe(no_mangle)]
pub extern "C" fn pintlecup_start(state: &mut Held, key: &[u8]) -> u8
    ensures { (result ≡ (start_of key.now).number) × (state.new ≡ held_of (start_of key.now).state) }
{
    exports::pintlecup_start(state, key)
}

#[unsafe(no_mangle)]
pub extern "C" fn pintlecup_add(
    state: &mut Held,
    store: &mut [u8],
    address: usize,
    value: &[u8],
) -> u8
    ensures { left result state.new store.new []
        ≡ in_place state.old (add_of width tag (state_of state.old) store.old address value.now).seen }
{
    exports::pintlecup_add(state, store, address, value)
}

#[unsafe(no_mangle)]
pub extern "C" fn pintlecup_load(
    state: &mut Held,
    store: &mut [u8],
    address: usize,
    out: &mut [u8],
) -> u8
    ensures { left result state.new store.new out.new
        ≡ in_place state.old (load_of width tag (state_of state.old) store.old address out.old).seen }
{
    exports::pintlecup_load(state, store, address, out)
}

#[unsafe(no_mangle)]
pub extern "C" fn pintlecup_store(
    state: &mut Held,
    store: &mut [u8],
    address: usize,
    value: &[u8],
) -> u8
    ensures { left result state.new store.new []
        ≡ in_place state.old (store_of width tag (state_of state.old) store.old address value.now).seen }
{
    exports::pintlecup_store(state, store, address, value)
}

#[unsafe(no_mangle)]
pub extern "C" fn pintlecup_remove(state: &mut Held, store: &mut [u8], address: usize) -> u8
    ensures { left result state.new store.new []
        ≡ in_place state.old (remove_of width tag (state_of state.old) store.old address).seen }
{
    exports::pintlecup_remove(state, store, address)
}

#[unsafe(no_mangle)]
pub extern "C" fn pintlecup_check(state: &mut Held, store: &mut [u8], address: &mut usize) -> u8
    ensures { (left result state.new store.new []
        ≡ in_place state.old (check_of width tag (state_of state.old) store.old).seen)
        × (address.new ≡ stamp_or address.old (check_of width tag (state_of state.old) store.old).seen.verdict) }
{
    exports::pintlecup_check(state, store, address)
}

#[unsafe(no_mangle)]
pub extern "C" fn pintlecup_look(store: &[u8], address: usize) -> usize
    ensures { result ≡ look_answer width store.now address }
{
    exports::pintlecup_look(store, address)
}

#[unsafe(no_mangle)]
pub extern "C" fn pintlecup_count(state: &Held) -> u32
    ensures { result ≡ count_of state.now.marks }
{
    exports::pintlecup_count(state)
}

#[unsafe(no_mangle)]
pub extern "C" fn pintlecup_lowest_free(state: &Held, address: &mut usize) -> u8
    ensures { (result ≡ free_number (lowest_of state.now.marks))
        × (address.new ≡ free_or address.old (lowest_of state.now.marks)) }
{
    exports::pintlecup_lowest_free(state, address)
}

#[unsafe(no_mangle)]
pub extern "C" fn pintlecup_digest(message: &[u8], out: &mut [u8]) -> u8
    ensures { filled result out.new ≡ digest_of message.now out.old }
{
    exports::pintlecup_digest(message, out)
}

#[unsafe(no_mangle)]
pub extern "C" fn pintlecup_hmac(key: &[u8], message: &[u8], out: &mut [u8]) -> u8
    ensures { filled result out.new ≡ mac_of key.now message.now out.old }
{
    exports::pintlecup_hmac(key, message, out)
}

#[unsafe(no_mangle)]
pub extern "C" fn pintlecup_pack(filter: &Fields, out: &mut [u8]) -> u8
    ensures { filled result out.new ≡ pack_of (record_of filter.now) out.old }
{
    exports::pintlecup_pack(filter, out)
}

#[unsafe(no_mangle)]
pub extern "C" fn pintlecup_unpack(bytes: &[u8], filter: &mut Fields) -> u8
    ensures { (result ≡ (unpack_of bytes.now).number) × (filter.new ≡ fields_of (unpack_of bytes.now).filter) }
{
    exports::pintlecup_unpack(bytes, filter)
}

#[unsafe(no_mangle)]
pub extern "C" fn pintlecup_compare(held: &Fields, offered: &Fields, distance: &mut i32) -> u8
    ensures { (result ≡ going_answer (going_of (record_of held.now) (record_of offered.now)))
        × (distance.new ≡ distance_or distance.old (going_of (record_of held.now) (record_of offered.now))) }
{
    exports::pintlecup_compare(held, offered, distance)
}

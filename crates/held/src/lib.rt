// What a caller in another language holds, in plain numbers: the trusted state and a filter record; and each call on them by value, under its own name.
// C is told numbers: `Result` and `Option` end in this crate, and an answer is a `u8` beside what is left.
#![tactic(auto)]

ghost use Rattle.std.specs.Prelude.{◌≡◌, List, [], ℕ};
ghost use Rattle.std.proofs.Math.Option.{some};
ghost use Rattle.refusal.specs.Refusal.{filled};
ghost use Rattle.state.specs.Sizes.{width};
ghost use Rattle.state.specs.Start.{start_of};
ghost use Rattle.state.specs.TakePut.{moved};
ghost use Rattle.state.specs.Marks.{count_of};
ghost use Rattle.state.specs.Access.{add_of, load_of, store_of, remove_of, lowest_of, free_number};
ghost use Rattle.state.specs.Check.{check_of};
ghost use Rattle.entries.specs.Tag.{tag};
ghost use Rattle.filter.specs.Filter.{pack_of, unpack_of};
ghost use Rattle.going.specs.Going.{going_of};
ghost use Rattle.held.specs.Held.{state_of, held_of};
ghost use Rattle.held.specs.Fields.{record_of, fields_of};
ghost use Rattle.held.specs.Answers.{answer, left, in_place, stamp_or, free_or, going_answer, distance_or};

use filter::{Action, Family, FilterRecord};
use going::Going;
use refusal::Refusal;
use state::{State, Verdict};

// A multiset hash, as its caller holds it.
#[repr(C)]
#[derive(Clone, Copy)]
pub struct Hash {
    pub tag: [u8; State::TAG],
    pub number: u32,
}

// The trusted state, as its caller holds it: 240 bytes without a gap. Each number in it may have any value: a mark is clear where its byte is 0, and else
// set; the last two bytes have no meaning, and are written as 0.
#[repr(C)]
#[derive(Clone, Copy)]
pub struct Held {
    pub key: [u8; State::KEY],
    pub marks: [u64; State::WORDS],
    pub put: Hash,
    pub take: Hash,
    pub clock: u16,
    pub fault: u8,
    pub closed: u8,
    pub first: u16,
    pub unused: u16,
}

// A filter record, as its caller holds it: family 0 is IPv4, and else IPv6; action 0 is deny, and else permit.
#[repr(C)]
#[derive(Clone, Copy)]
pub struct Fields {
    pub family: u8,
    pub action: u8,
    pub length: u8,
    pub longest: u8,
    pub member: u32,
    pub serial: u32,
    pub prefix: [u8; 16],
}

// A mark is clear where its byte is 0, and else set. Fields that are arrays are named first: they do not go straight into a literal.
impl From<Held> for State {
    ghost from_gives = { λ h s. s ≡ state_of h };

    #[tactic(auto, unfolding(crate::specs::Held::state_of))]
    fn from(h: Held) -> State {
        let key = h.key;
        let marks = h.marks;
        let put = h.put;
        let put_tag = put.tag;
        let take = h.take;
        let take_tag = take.tag;
        State {
            seal: state::Seal { key },
            put: state::Hash {
                tag: put_tag,
                number: put.number,
            },
            take: state::Hash {
                tag: take_tag,
                number: take.number,
            },
            clock: h.clock,
            fault: h.fault != 0,
            first: h.first,
            closed: h.closed != 0,
            marks,
        }
    }
}

// A mark is written as 0 or 1.
impl From<State> for Held {
    ghost from_gives = { λ s h. h ≡ held_of s };

    #[tactic(auto, unfolding(crate::specs::Held::held_of))]
    fn from(s: State) -> Held {
        let seal = s.seal;
        let key = seal.key;
        let marks = s.marks;
        let put = s.put;
        let put_tag = put.tag;
        let take = s.take;
        let take_tag = take.tag;
        Held {
            key,
            marks,
            put: Hash {
                tag: put_tag,
                number: put.number,
            },
            take: Hash {
                tag: take_tag,
                number: take.number,
            },
            clock: s.clock,
            fault: s.fault as u8,
            closed: s.closed as u8,
            first: s.first,
            unused: 0,
        }
    }
}

// 0 is IPv4, and else IPv6; 0 is deny, and else permit.
impl From<Fields> for FilterRecord {
    ghost from_gives = { λ f r. r ≡ record_of f };

    #[tactic(auto, unfolding(crate::specs::Fields::record_of))]
    fn from(f: Fields) -> FilterRecord {
        let prefix = f.prefix;
        FilterRecord {
            family: Family::from(f.family),
            action: Action::from(f.action),
            length: f.length,
            longest: f.longest,
            member: f.member,
            serial: f.serial,
            prefix,
        }
    }
}

impl From<FilterRecord> for Fields {
    ghost from_gives = { λ r f. f ≡ fields_of r };

    #[tactic(auto, unfolding(crate::specs::Fields::fields_of))]
    fn from(r: FilterRecord) -> Fields {
        let prefix = r.prefix;
        Fields {
            family: u8::from(r.family),
            action: u8::from(r.action),
            length: r.length,
            longest: r.longest,
            member: r.member,
            serial: r.serial,
            prefix,
        }
    }
}

// What a call on a state held by value gives: its answer, and the state that is to be left.
#[derive(Clone, Copy)]
pub struct Kept {
    pub answer: u8,
    pub state: Held,
}

pub fn start(key: &[u8]) -> Kept
    ensures { (result.answer ≡ (start_of key.now).number) × (result.state ≡ held_of (start_of key.now).state) }
{
    let started = State::start(key);
    Kept {
        answer: refusal::told(started.answer),
        state: Held::from(started.state),
    }
}

pub fn add(h: Held, store: &mut [u8], a: usize, value: &[u8]) -> Kept
    ensures { left result.answer result.state store.new []
        ≡ in_place h (add_of width tag (state_of h) store.old a value.now).seen }
{
    placed(h, store::add(State::from(h), store, a, value))
}

pub fn load(h: Held, store: &mut [u8], a: usize, out: &mut [u8]) -> Kept
    ensures { left result.answer result.state store.new out.new
        ≡ in_place h (load_of width tag (state_of h) store.old a out.old).seen }
{
    placed(h, store::load(State::from(h), store, a, out))
}

pub fn store(h: Held, store: &mut [u8], a: usize, value: &[u8]) -> Kept
    ensures { left result.answer result.state store.new []
        ≡ in_place h (store_of width tag (state_of h) store.old a value.now).seen }
{
    placed(h, store::store(State::from(h), store, a, value))
}

pub fn remove(h: Held, store: &mut [u8], a: usize) -> Kept
    ensures { left result.answer result.state store.new []
        ≡ in_place h (remove_of width tag (state_of h) store.old a).seen }
{
    placed(h, store::remove(State::from(h), store, a))
}

// A refused call leaves the state as it was.
#[tactic(auto, using(crate::proofs::Place::placed), unfolding(crate::specs::Answers::in_place))]
fn placed(before: Held, answer: Result<State, Refusal>) -> Kept
    ensures { (m o : List ℕ) → left result.answer result.state m o ≡ in_place before (moved answer (state_of before) m o) }
{
    match answer {
        Ok(s) => Kept {
            answer: 0,
            state: Held::from(s),
        },
        Err(refusal) => Kept {
            answer: refusal.number(),
            state: before,
        },
    }
}

// What a check gives: its answer, the state that is to be left, and what the lent address is after it.
#[derive(Clone, Copy)]
pub struct Judged {
    pub answer: u8,
    pub state: Held,
    pub address: usize,
}

#[tactic(auto, using(crate::proofs::Place::placed), unfolding(crate::specs::Answers::in_place))]
pub fn check(h: Held, store: &mut [u8], address: usize) -> Judged
    ensures { (left result.answer result.state store.new []
        ≡ in_place h (check_of width tag (state_of h) store.old).seen)
        × (result.address ≡ stamp_or address (check_of width tag (state_of h) store.old).seen.verdict) }
{
    match store::check(State::from(h), store) {
        Ok(checked) => Judged {
            answer: verdict_answer(checked.verdict),
            state: Held::from(checked.state),
            address: stamp_or(address, checked.verdict),
        },
        Err(refusal) => Judged {
            answer: refusal.number(),
            state: h,
            address,
        },
    }
}

#[tactic(auto, unfolding(crate::specs::Held::state_of))]
pub fn count(h: Held) -> u32
    ensures { result ≡ count_of h.marks }
{
    store::count(State::from(h))
}

// What lowest free gives: its number, and what the lent address is after it.
#[derive(Clone, Copy)]
pub struct Lowest {
    pub number: u8,
    pub address: usize,
}

#[tactic(auto, unfolding(crate::specs::Held::state_of, state::specs::Access::free_number))]
pub fn lowest_free(h: Held, address: usize) -> Lowest
    ensures { (result.number ≡ free_number (lowest_of h.marks)) × (result.address ≡ free_or address (lowest_of h.marks)) }
{
    let free = store::lowest_free(State::from(h));
    Lowest {
        number: refusal::told(free.and(Ok(()))),
        address: free.unwrap_or(address),
    }
}

pub fn pack(f: Fields, out: &mut [u8]) -> u8
    ensures { filled result out.new ≡ pack_of (record_of f) out.old }
{
    refusal::told(filter::pack(FilterRecord::from(f), out))
}

// What unpack gives: its number, as C is answered, and the filter record as it is held.
#[derive(Clone, Copy)]
pub struct Read {
    pub number: u8,
    pub fields: Fields,
}

pub fn unpack(bytes: &[u8]) -> Read
    ensures { (result.number ≡ (unpack_of bytes.now).number) × (result.fields ≡ fields_of (unpack_of bytes.now).filter) }
{
    let unpacked = filter::unpack(bytes);
    Read {
        number: refusal::told(unpacked.answer),
        fields: Fields::from(unpacked.filter),
    }
}

// What a comparison gives: its answer, a number as C has it, and what the lent distance is after it.
#[derive(Clone, Copy)]
pub struct Weighed {
    pub answer: u8,
    pub distance: i32,
}

pub fn compare(held: Fields, offered: Fields, distance: i32) -> Weighed
    ensures { (result.answer ≡ going_answer (going_of (record_of held) (record_of offered)))
        × (result.distance ≡ distance_or distance (going_of (record_of held) (record_of offered))) }
{
    let going = going::compare(FilterRecord::from(held), FilterRecord::from(offered));
    Weighed {
        answer: going_answer(going),
        distance: distance_or(distance, going),
    }
}

fn verdict_answer(v: Verdict) -> u8
    ensures { result ≡ answer 0 (some v) }
{
    match v {
        Verdict::Accept => 0,
        Verdict::Stamp(a) => 254,
        Verdict::Tag => 255,
    }
}

fn stamp_or(address: usize, v: Verdict) -> usize
    ensures { result ≡ stamp_or address (some v) }
{
    match v {
        Verdict::Accept => address,
        Verdict::Stamp(a) => a as usize,
        Verdict::Tag => address,
    }
}

fn going_answer(g: Going) -> u8
    ensures { result ≡ going_answer g }
{
    match g {
        Going::Forward(d) => 0,
        Going::Back(d) => 1,
        Going::OtherMember => 2,
        Going::NoOrder => 16,
    }
}

fn distance_or(distance: i32, g: Going) -> i32
    ensures { result ≡ distance_or distance g }
{
    match g {
        Going::Forward(d) => d,
        Going::Back(d) => d,
        Going::OtherMember => distance,
        Going::NoOrder => distance,
    }
}

// Going back: whether an offered filter record has an older key serial than the one held, and how far it is from one to the other.
#![tactic(auto)]

ghost use Rattle.std.specs.Prelude.{◌≡◌};
ghost use Rattle.going.specs.Going.{going_of};

use filter::FilterRecord;

// Four cases, and no `Option` of the distance: who matches on `Back` cannot forget the sign, and `NoOrder` alone has a number, 16.
#[derive(Clone, Copy)]
pub enum Going {
    OtherMember,
    NoOrder,
    Back(i32),
    Forward(i32),
}

// Of a filter record held and one offered.
pub fn compare(held: FilterRecord, offered: FilterRecord) -> Going
    ensures { result ≡ going_of held offered }
{
    if held.member != offered.member {
        return Going::OtherMember;
    }
    match serials::distance(held.serial, offered.serial) {
        None => Going::NoOrder,
        Some(d) if d < 0 => Going::Back(d),
        Some(d) => Going::Forward(d),
    }
}

// RFC 1982 with 32 bits: how far it is from one serial number to another, where 0 comes after 4,294,967,295.
#![tactic(auto)]

ghost use Rattle.std.specs.Prelude.{◌≡◌};
ghost use Rattle.serials.specs.Distance.{distance_of};

// Half way round. Two serial numbers so far apart have no order.
const HALF: u32 = 0x8000_0000;

// From the serial number held to the one offered, where the two have an order.
pub fn distance(held: u32, offered: u32) -> Option<i32>
    ensures { result ≡ distance_of held offered }
{
    let up = offered.wrapping_sub(held);
    if up == HALF {
        return None;
    }
    Some(up.cast_signed())
}

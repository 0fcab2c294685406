//! The rule that makes the feeds.

ghost use Rattle.std.specs.Prelude.{◌≡◌, ◌≤◌, ◌<◌, ◌^◌};
ghost use Rattle.drill_feeds.specs.Drill.{drill_count, drill_number, drill_order, drill_reply};

use feed_model::Order;

/// How many samples a feed has, where the drill has so many.
pub(crate) fn count_of(samples: u64, id: u32) -> u64
    ensures count { result ≡ drill_count samples id }
    ensures few { result ≤ samples }
{
    match id {
        1 => samples,
        2 => samples / 2,
        _ => samples / 10,
    }
}

/// The order of a feed's numbers.
pub(crate) fn order_of(id: u32) -> Order
    ensures { result ≡ drill_order id }
{
    match id {
        2 => Order::Big,
        _ => Order::Little,
    }
}

/// The number that a value is made of.
pub(crate) fn number_at(samples: u64, id: u32, position: u64, channel: u64) -> u64
    requires samples { samples ≤ 1_000_000 }
    requires position { position ≤ 1_000_000 }
    requires channel { channel ≤ 1 }
    ensures { result ≡ drill_number samples id position channel }
{
    let place = samples + 65_536 * id as u64 + 4096 * channel + position;
    place.wrapping_mul(6_364_136_223_846_793_005)
}

/// The outlet's reply, for an order.
pub(crate) fn reply_of(order: Order) -> &'static str
    ensures { result.now ≡ drill_reply order }
{
    match order {
        Order::Little => {
            "LSL/110 200 OK\r\nUID: u1\r\nByte-Order: 1234\r\nSuppress-Subnormals: 0\r\nData-Protocol-Version: 110\r\n\r\n"
        }
        Order::Big => {
            "LSL/110 200 OK\r\nUID: u1\r\nByte-Order: 4321\r\nSuppress-Subnormals: 0\r\nData-Protocol-Version: 110\r\n\r\n"
        }
    }
}

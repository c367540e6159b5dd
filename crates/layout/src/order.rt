// An order in the words that the host lends for orders.
ghost use Rattle.std.specs.Prelude.{◌≡◌, ◌+◌, ◌*◌, ◌≤◌, length};
ghost use Rattle.layout.specs.Leaves.{put_order};

use crate::word::kind_word;
use rules::order::Order;

// Writes the order with number n: its kind, address and size.
pub fn order_put(orders: &mut [u64], n: usize, order: Order)
    requires { n * 3 + 3 ≤ length orders.old }
    ensures { orders.new ≡ put_order n order orders.old }
{
    let own = [kind_word(order.kind), order.address, order.size];
    words::copy_in(&mut orders[n * 3..], &own);
}

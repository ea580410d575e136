// How precedence constraints turn when time runs backwards.
ghost use Rattle.std.specs.Prelude.{◌≡◌};
ghost use Rattle.msp_class.specs.Order.{turned};

use crate::class::Order;

/// The order of the same jobs when every arc has its ends exchanged.
pub fn turned(o: Order) -> Order
    ensures { result ≡ turned o }
{
    match o {
        Order::Intree => Order::Outtree,
        Order::Outtree => Order::Intree,
        Order::Free | Order::Chains | Order::Prec => o,
    }
}

// Laws over the definitions alone.
ghost use Rattle.plan_orders.specs.Laws.{OrdersCanBeSpelled, OrdersFit, PlansSetOnce};

/// No two steps of a plan set the mode of one file. So they lead where they led in each order that keeps that of steps whose paths are
/// related.
pub fn plans_set_once()
    ensures { PlansSetOnce }
{}

/// A journal takes the steps of each plan of checked changes in each such order too: it can spell them, and it isn't too long to be
/// read.
pub fn orders_can_be_spelled()
    ensures { OrdersCanBeSpelled }
{}

/// Where steps, no two of which set the mode of one file, fit a commit, they do so in each such order, with a journal of that order.
pub fn orders_fit()
    ensures { OrdersFit }
{}

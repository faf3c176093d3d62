// Laws over the definitions alone.
ghost use Rattle.step_layers.specs.Laws.{
  GroupsAreFew,
  LayersAreIndependent,
  LayersKeepOrder,
  OrdersEndAlike,
  OrdersHaveAll,
  OrdersLead,
};

/// Steps that lead from an old tree to an edited one, no two of which set the mode of one file, do so in each order that keeps that
/// of steps whose paths are related, and the last tree is the same. Such an order has the same steps.
pub fn orders_lead()
    ensures lead { OrdersLead }
    ensures alike { OrdersEndAlike }
    ensures all { OrdersHaveAll }
{}

/// To sort by layer keeps the order of steps whose paths are related.
pub fn layers_keep_order()
    ensures { LayersKeepOrder }
{}

/// In a layer of lawful steps no two paths are related, so that more than eight steps have at most as many groups as layers.
pub fn layers_are_independent()
    ensures independent { LayersAreIndependent }
    ensures few { GroupsAreFew }
{}

//! Laws of made networks. Each is the contract of a function that does nothing.
ghost use Rattle.nrm_gen.specs.Laws.{MadeNetworksAreLimited, ProductsUseOneLegEachWay};

/// The network of every number is within the limits.
pub fn made_networks_are_limited()
    ensures { MadeNetworksAreLimited }
{}

/// A product of a made network takes a seat on at most one inbound and at most one outbound leg.
pub fn products_use_one_leg_each_way()
    ensures { ProductsUseOneLegEachWay }
{}

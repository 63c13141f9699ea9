// Laws: the tables that sweeps, closings and additions leave, and the caches that they stand for.
#![tactic(auto)]

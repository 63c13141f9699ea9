// No code: lists of the cache's calls, by the records that their `ensures` cite, and demand 3 stand in specs/.
#![tactic(auto)]

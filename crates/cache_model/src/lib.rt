// No code: the pending flow cache as document 01 speaks of it stands in specs/.
#![tactic(auto)]

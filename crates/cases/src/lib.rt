// No code: the table of document 01's cases stands in specs/.
#![tactic(auto)]

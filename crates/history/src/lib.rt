// No code: the history account of document 01 and what is claimed of every history stand in specs/.
#![tactic(auto)]

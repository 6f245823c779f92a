// That demand 3's statement says something: it accepts the histories of document 01's plans and refuses wrong ones.
#![tactic(auto)]

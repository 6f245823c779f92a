// The plans of document 01 as one table, proved of the definitions: see specs/Plans.antt, and specs/Waiting.antt for releases that wait.
#![tactic(auto)]

// The lines of a file's record, read from its bytes, are those of its run: specs/FileLines. Nothing here is run.
#![tactic(auto)]

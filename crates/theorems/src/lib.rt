// The engine's promises in the large, with no function: what follows from the promises of its calls.
#![tactic(auto)]

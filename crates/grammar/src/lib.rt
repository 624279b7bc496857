// Definitions and laws only: what a grammar of bytes is, and the parts that grammars are put together from.
#![tactic(auto)]

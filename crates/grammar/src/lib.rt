// How the problem and the derivation are written: bytes, numbers, lines, readers. Definitions and what is proved of them; no code.
#![tactic(auto)]

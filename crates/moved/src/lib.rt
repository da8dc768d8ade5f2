// A cut says the same wherever its sections stand: two accepted files that have a cut with the same octets answer every call on it alike, lent memory
// included; and what FORMAT.md, "To come" (smaller file, rescue), promises of a file made of such cuts. No program as yet: definitions and laws, over the calls' own definitions. Below it
// stand `files` (a file by its octets) and the calls of both formats, `polar` and `dualpol`; nothing stands above it.
#![tactic(auto)]

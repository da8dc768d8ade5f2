// A file as its sections one after the other, by their octets alone, whatever the format; and files made of cuts that stood in another (FORMAT.md, "To come": smaller file, rescue).
// No program as yet: definitions and laws. Below it stands `sections`, which accepts a file by the places of its sections: proofs/ToFile.antt and
// proofs/FromFile.antt show that this comes to the same. Above it stands `moved`, which says so in the terms of each format's calls.
#![tactic(auto)]

// A file written as a FITS table and a table read into a file: definitions in specs/, theorems in proofs/. There is no code here.

#![tactic(auto)]

// What a solver's answer says, and what its print comes to (document 02, #103). The definitions are in specs/, and proofs/ has that a print
// is read back.
#![tactic(auto)]

// What a reading comes to where it is not refused: an assignment, or the word that none was found.
#[derive(Clone, Copy, Debug, PartialEq, Eq)]
pub enum Solution {
    Assignment,
    Unsatisfiable,
}

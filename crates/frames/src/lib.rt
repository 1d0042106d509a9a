// What a frame is, and what reading, writing and editing answer (01, "What is refused, and in which order"; FORMAT 3, 7 and 8).
//
// The definitions, and the laws from which the demands follow, are in specs/ and proofs/. The code that reads, writes and edits is in the
// crates above, whose contracts cite these definitions; here is what they answer of an accepted frame.
#![tactic(auto)]

// Its type, and how many fields it has.
#[derive(Clone, Copy, Debug, PartialEq, Eq)]
pub struct Accepted {
    pub ty: u32,
    pub count: usize,
}

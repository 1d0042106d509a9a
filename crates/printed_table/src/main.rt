// The printed table (01, "The printed table"; FORMAT 11), as a program that takes no input.
#![tactic(auto)]

fn main() {
    printing::table::print();
}

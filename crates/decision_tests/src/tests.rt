//! What no contract says of automata, products, certificates and the finder, a module for each
//! subject.
//!
//! A test calls one function on a small table, as on that of `41` and `42`, both at BOF 0, and
//! compares its answer with one that is worked out by hand. How these calls end where memory runs
//! out is tested in `refused_tests`, and what the program prints in `command_tests`.

mod additions;
mod automata;
mod certificates;
mod classes;
mod finding;
mod inclusions;
mod lives;
mod pairs;
mod products;

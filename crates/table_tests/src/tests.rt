//! What no contract says of byte classes, devices, expressions, rankings, sets and tables, a module
//! for each.
//!
//! Most are loops over rows, as that of the text `4` and its first fault, `Syntax` at place 1. The
//! lines of `lint` on such faults are tested in `lint_tests`.

mod byte_classes;
mod devices;
mod expressions;
mod rankings;
mod sets;
mod tables;

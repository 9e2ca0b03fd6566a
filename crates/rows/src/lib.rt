// What rows and bytes must be: spare bits 0, and bytes that are elements of the field.
#![tactic(auto)]

pub mod elements;
pub mod spare;

//! Scripts as text and as values, and the inputs of programs.
mod generating;
mod inputs;
mod parsing;

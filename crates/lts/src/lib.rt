//! The theory of stuck-free conformance. The definitions and the laws stand in `specs/`; each law is named by the
//! contract of a function here, so that the check asks for its proof.
#![tactic(auto)]

pub mod machines;
pub mod systems;

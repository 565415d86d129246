//! The types of `vk_base` by one module: specs and lemma files bring in those that they name by one line, `vk_types.specs.Types`.
//!
//! Stands on `vk_base`, and has neither code nor definitions of its own. A type that is added to `vk_base` gets its line in
//! `specs/Types.antt`.
#![tactic(auto)]

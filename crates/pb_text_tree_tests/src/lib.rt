//! Tests of texts as trees, by the public call of `pb_text_tree`.
#![tactic(auto)]

#[cfg(test)]
mod syntax;

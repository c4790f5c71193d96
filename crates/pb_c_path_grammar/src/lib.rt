//! The grammar of paths with the names of fields, as `lines[2].article` and `stock["pen"]`, and what it proves
//! of `read_path` of `pb_c_paths`: each path is read as the place that it spells. Each theorem is the contract
//! of a function that does nothing.
#![tactic(auto)]

ghost use Rattle.pb_schema.specs.Rules.{IsPool};
ghost use Rattle.pb_schema.specs.Types.{Types};
ghost use Rattle.pb_c_path_grammar.specs.Grammar.{PlacesAreSpelled, ReadIsSpelled, SpelledIsRead, SpellsOnePlace};

/// What is read of a path is the place that it spells by the grammar, and each path of the grammar is read.
/// So a path that is refused spells no place. A path spells one place.
pub fn grammar()
    ensures derived { (pool : Types) → ReadIsSpelled pool }
    ensures read { (pool : Types) → SpelledIsRead pool }
    ensures one { (pool : Types) → SpellsOnePlace pool }
{}

/// Each place that a path spells is spelled by one function, and this spelling is a path to it: it is read
/// as the same steps.
pub fn spelling()
    ensures { (pool : Types) → IsPool pool → PlacesAreSpelled pool }
{}
